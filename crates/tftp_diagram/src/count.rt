//! A number of things, with their name in the singular or the plural.

use std::fmt;

/// A number of things, as `1 block` or `2 blocks`.
#[derive(Clone, Copy)]
pub struct Count {
    pub number: u64,
    /// The name of one of them, as `block`; that of several has an `s` after it.
    pub name: &'static str,
}

impl fmt::Display for Count {
    fn fmt<W: fmt::Write>(&self, f: &mut fmt::Formatter<W>) -> fmt::Result {
        let (number, name) = (self.number, self.name);
        let ending = match number {
            1 => "",
            _ => "s",
        };
        write!(f, "{number} {name}{ending}")
    }
}
