//! A TFTP server and its clients as programs with traces, joined by an honest network: one that
//! delivers only what was sent (RFC 1350, sections 2 and 4).
//!
//! It has definitions and laws, and no code that runs.
//!
//! Begin with [`laws`].
#![tactic(auto)]

pub mod laws;
