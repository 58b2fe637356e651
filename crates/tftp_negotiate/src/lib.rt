//! Negotiates the options of a transfer (RFC 2347; RFC 2348; RFC 2349).
//!
//! It encodes and decodes no packet, opens no socket and allocates no memory. It supports the
//! options `blksize`, `timeout` and `tsize`. Any other option is never an error of a request.
//!
//! Begin with [`accept`], a server's answer to a request, and [`check_oack`], a client's check of
//! that answer. A client accepts the server's answer to its request, and both then have one block
//! size.
#![tactic(auto)]

mod agreed;
mod answer;
mod asked;
mod known;
pub mod laws;
mod limits;
mod name;
mod negotiation;
mod number;
mod oack;
mod policy;
mod refusal;

pub use agreed::Agreed;
pub use answer::{accept, accept_ref};
pub use asked::Asked;
pub use known::{Kind, Known};
pub use limits::{
    DEFAULT_BLOCK, Limits, MAX_TIMEOUT, MIN_BLOCK, MIN_TIMEOUT, is_block_size, is_timeout,
};
pub use name::Name;
pub use oack::{check_oack, check_oack_ref, stated_tsize};
pub use refusal::Refusal;
pub use tftp_wire::MAX_BLOCK;
