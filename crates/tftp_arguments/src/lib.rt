//! Common parts of the programs' command lines: a program's own words, its arguments, and the
//! messages for faulty ones.
//!
//! Begin with [`own_words`] and [`print_usage`].
#![tactic(auto)]

mod arguments;
pub mod laws;
mod standard_streams;

pub use arguments::{
    VERSION, WordsFault, flag, is_set, number, own_words, print_no_memory, print_usage,
    print_words_fault, word,
};
pub use standard_streams::{StandardStreams, open_streams};
