//! A machine of guarded rules for the transfers of one TFTP server and its clients, over a network
//! that loses, repeats and reorders datagrams, and the invariants of every run. Where the endpoints
//! are is its parameter.
//!
//! It has definitions and laws, and one function, [`is_foreign`]. Ends, or a whole world of them,
//! that refine the machine have its invariants.
//!
//! Begin with [`laws::every_run_is_safe`].
#![tactic(auto)]

mod hosts;
pub mod laws;

pub use hosts::{CLIENT_IP, SERVER_IP, is_foreign};
