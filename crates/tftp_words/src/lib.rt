//! What `tftpd` and `tftp` did for the words of their command lines keeps the promises of a
//! transfer (RFC 1350, sections 2 and 4).
//!
//! It has definitions and a law, and no code that runs.
//!
//! Begin with [`laws`].
#![tactic(auto)]

pub mod laws;
