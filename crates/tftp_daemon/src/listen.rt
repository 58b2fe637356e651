//! Where the requests of a server arrive.

ghost use Rattle.std.specs.Prelude.{◌≡◌, ◌≢◌, IfSome, true};
ghost use Rattle.tftp_daemon.specs.CommandLine.{AllDistinct, HasApart, IsApart, NamesListen};

use std::fmt;
use tftp_ends::Endpoint;
use tftp_sockets::endpoint_in;

/// Where the requests of a server arrive.
#[derive(Clone, Copy)]
pub(crate) enum Listen {
    /// At a port that is bound to this endpoint.
    At(Endpoint),
    /// At the socket that is standard input: another program bound it.
    Handed,
}

impl Listen {
    /// What a word names: `stdin`, or an IPv4 address and a port; `None` for other words.
    pub(crate) fn named(word: &str) -> Option<Listen>
        ensures { IfSome result (NamesListen word.now) }
    {
        match word {
            "stdin" => Some(Listen::Handed),
            _ => match endpoint_in(word) {
                Some(at) => Some(Listen::At(at)),
                None => None,
            },
        }
    }
}

impl fmt::Display for Listen {
    fn fmt<W: fmt::Write>(&self, f: &mut fmt::Formatter<W>) -> fmt::Result {
        match self {
            Listen::At(at) => write!(f, "{at}"),
            Listen::Handed => f.write_str("standard input"),
        }
    }
}

/// Whether no endpoint stands twice, of that where requests arrive and these others.
pub(crate) fn has_apart(listen: Listen, others: &[Endpoint]) -> bool
    ensures { result ≡ true → HasApart listen others.now }
{
    match listen {
        Listen::At(at) => is_apart(at, others) && are_apart(others),
        Listen::Handed => are_apart(others),
    }
}

/// Whether no two of these endpoints are the same.
fn are_apart(endpoints: &[Endpoint]) -> bool
    ensures { result ≡ true → AllDistinct endpoints.now }
{
    match endpoints {
        [at, others @ ..] => is_apart(*at, others) && are_apart(others),
        [] => true,
    }
}

/// Whether this endpoint is none of these.
fn is_apart(at: Endpoint, others: &[Endpoint]) -> bool
    ensures { result ≡ true → IsApart at others.now }
{
    match others {
        [other, rest @ ..] => differs(*other, at) && is_apart(at, rest),
        [] => true,
    }
}

/// Whether two endpoints differ.
fn differs(one: Endpoint, other: Endpoint) -> bool
    ensures { result ≡ true → one ≢ other }
{
    one != other
}
