//! A trace that only clauses read: it has no bytes, and to note an event does nothing. The kind of
//! the trace says what its events are, and how each is read off a value of the code.
//!
//! Begin with [`Trace`] and [`Kind`].
#![tactic(auto)]

mod trace;

pub use trace::{Kind, Trace};
