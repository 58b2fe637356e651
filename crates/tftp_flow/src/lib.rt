//! The transfers of a capture: which datagrams are of which, how each ended, and how it is printed
//! and drawn.
//!
//! Begin with [`Flow`]. It opens no file and reads no clock, and has in memory only the transfers
//! that are not over.
#![tactic(auto)]

mod flow;

pub use flow::{
    Aside, Assigned, CapturedTransfer, DataLine, Ended, Ending, Flow, Json, LineFault, Moment,
    Opened, Party, Payload, Seen, Span, Spot, Stray, TransferDatagram, Unread, What, Why,
};
