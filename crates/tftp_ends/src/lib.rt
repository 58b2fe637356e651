//! The two ends of a transfer as state machines without IO (RFC 1350; RFC 1123, section 4.2.3.1;
//! RFC 2347).
//!
//! An end opens no socket and reads no clock. It uses a file only through its source or its sink.
//! The caller delivers datagrams and timeouts, and sends the datagram that a call appends to `out`
//! or lends: at most one for each event.
//!
//! Begin with [`End`]. Each of its calls makes one step of the machine that specs/ defines.
#![tactic(auto)]

mod action;
mod backoff;
mod config;
mod decoding;
mod end;
mod endpoint;
mod error_reply;
mod fault;
pub mod laws;
mod next_block;
mod options;
mod outcome;
mod outgoing;
mod phase;
mod receiver;
mod record;
mod reply;
mod request;
mod role;
mod sender;
mod service;
mod side;
mod waiting;

pub use action::{Action, Response};
pub use backoff::Backoff;
pub use config::EndConfig;
pub use decoding::decode_packet;
pub use end::End;
pub use endpoint::Endpoint;
pub use error_reply::ErrorReply;
pub use fault::{EndFault, OpenFault};
pub use next_block::NextBlock;
pub use outcome::Outcome;
pub use outgoing::Outgoing;
pub use phase::{Dally, Phase, Terms};
pub use record::{DEFAULT_INTERVAL, Held, Record, Step};
pub use reply::MAX_ERROR;
pub use service::ReadService;
pub use side::Side;
