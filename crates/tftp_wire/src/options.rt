//! The options of a request or an OACK: pairs of a name and a value, in order.

ghost use Rattle.std.specs.Prelude.{◌≡◌, ◌==◌, ◌↔◌, length, IfOk, IsTrue};
ghost use Rattle.tftp_wire.specs.Borrowed.{owned_option};
ghost use Rattle.tftp_wire.specs.Options.{options_bytes, options_in, AreOptions};
ghost use Rattle.std.specs.Iterator.{YieldsFirstBy, item_count};

use crate::bytes::Bytes;
use crate::text::split_text;
use std::alloc::{AllocError, Global};
use std::marker::Model;

/// An option as text. It need not be a known option, nor its value a number.
#[derive(Debug, Drop, PartialEq, Eq)]
pub struct RawOption {
    /// The name, in its original case.
    pub name: Bytes,
    /// The value, which may be empty.
    pub value: Bytes,
}

impl RawOption {
    /// The option, borrowed.
    pub fn as_ref(&self) -> OptionRef<'_>
        ensures { owned_option result ≡ self.now }
    {
        OptionRef {
            name: self.name.as_slice(),
            value: self.value.as_slice(),
        }
    }
}

/// Options, in order. Conversion from and into a `Vec` allocates no memory.
#[derive(Debug, Drop)]
pub struct RawOptions {
    items: Vec<RawOption>,
}

impl Model for RawOptions {
    ghost use Rattle.std.specs.Prelude.{List};
    ghost use Rattle.tftp_wire.specs.declared.options.RawOption.{RawOption};

    ghost Value = { List RawOption };

    ghost view = { λ o. o.items.items };
}

impl RawOptions {
    /// The options, in order.
    pub fn as_slice(&self) -> &[RawOption]
        ensures { result.now ≡ self.now }
    {
        self.items.as_slice()
    }

    /// The vector that holds the options.
    pub fn into_vec(self) -> Vec<RawOption>
        ensures { result.items ≡ self }
    {
        self.items
    }
}

impl From<Vec<RawOption>> for RawOptions {
    ghost from_gives = { λ v o. o ≡ v.items };

    fn from(items: Vec<RawOption>) -> RawOptions {
        RawOptions { items }
    }
}

/// An option of a datagram, borrowed from it.
#[derive(Clone, Copy, Debug, PartialEq, Eq)]
pub struct OptionRef<'a> {
    /// The name, in its original case.
    pub name: &'a [u8],
    /// The value, which may be empty.
    pub value: &'a [u8],
}

/// The options of a datagram, well-formed and borrowed from it.
#[derive(Debug, Drop)]
pub struct OptionsRef<'a> {
    bytes: &'a [u8],
}

impl<'a> Model for OptionsRef<'a> {
    ghost use Rattle.std.specs.Prelude.{List};
    ghost use Rattle.tftp_wire.specs.declared.options.RawOption.{RawOption};
    ghost use Rattle.tftp_wire.specs.Options.{options_in, AreOptions};

    ghost Value = { List RawOption };

    ghost view = { λ o. options_in o.bytes.now };

    ghost invariant = { λ o. AreOptions o.bytes.now };
}

impl<'a> OptionsRef<'a> {
    /// The options that the bytes spell.
    pub(crate) fn new(bytes: &'a [u8]) -> OptionsRef<'a>
        requires { AreOptions bytes.now }
        ensures { result ≡ options_in bytes.now }
    {
        OptionsRef { bytes }
    }

    /// The length of the options in the datagram, in bytes.
    pub(crate) fn bytes_len(&self) -> usize
        ensures { result ≡ length (options_bytes self.now) }
    {
        self.bytes.len()
    }

    /// Whether both have the same options, in the same order.
    pub fn is_same(&self, other: &OptionsRef<'_>) -> bool
        ensures { IsTrue result ↔ (self.now ≡ other.now) }
    {
        self.bytes == other.bytes
    }

    /// An iterator over the options, in order.
    pub fn iter(&self) -> OptionsIter<'a>
        ensures { result ≡ self.now }
    {
        OptionsIter { rest: self.bytes }
    }
}

impl<'a> IntoIterator for &OptionsRef<'a> {
    type Item = OptionRef<'a>;

    type IntoIter = OptionsIter<'a>;

    ghost into_iter_gives = { λ options left. left ≡ options.now };

    fn into_iter(self) -> OptionsIter<'a> {
        self.iter()
    }
}

/// An iterator over the options of a datagram.
#[derive(Debug, Drop)]
pub struct OptionsIter<'a> {
    rest: &'a [u8],
}

impl<'a> Model for OptionsIter<'a> {
    ghost use Rattle.std.specs.Prelude.{List};
    ghost use Rattle.tftp_wire.specs.declared.options.RawOption.{RawOption};
    ghost use Rattle.tftp_wire.specs.Options.{options_in, AreOptions};

    ghost Value = { List RawOption };

    ghost view = { λ o. options_in o.rest.now };

    ghost invariant = { λ o. AreOptions o.rest.now };
}

impl<'a> Iterator for OptionsIter<'a> {
    type Item = OptionRef<'a>;

    ghost next_gives = { YieldsFirstBy owned_option (λ s. s) };

    ghost remaining = { item_count (λ s. s) };

    fn next(&mut self) -> Option<OptionRef<'a>> {
        let (name, after) = split_text(self.rest)?;
        let (value, rest) = split_text(after)?;
        self.rest = rest;
        Some(OptionRef { name, value })
    }
}
