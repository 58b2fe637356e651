//! What an end of a transfer has heard and sent since it opened, and what follows of it and its
//! peer. It has definitions and laws, and no code that runs.
//!
//! Begin with [`laws`].
#![tactic(auto)]

pub mod laws;
