//! The ports of transfers, as a word names them.

ghost use Rattle.std.specs.Prelude.{◌≡◌, ◌+◌, ◌-◌, ◌<◌, ◌≤◌, ◌↔◌, ◌∷◌, ◌++◌, Some, IfOk, IfSome};
ghost use Rattle.std.specs.Prelude.{IsTrue, option_map};
ghost use Rattle.tftp_arguments.specs.Read.{IsNumber};
ghost use Rattle.tftp_daemon.specs.CommandLine.{NamesPorts, PortsAs};
ghost use Rattle.tftp_daemon.specs.Refused.{HasPortsFor};

use tftp_loop::PortRange;

const NO_PORTS: &str = "for '--ports <A:B>': not two ports from 1 to 65535, the lower first";

const FEW_PORTS: &str = "for '--ports <A:B>': fewer ports than servers";

/// A word names no ports of transfers, or too few, for this reason.
#[derive(Clone, Copy)]
pub(crate) struct NoPorts(pub(crate) &'static str);

/// The ports of transfers of so many servers, or `None` if the system chooses: those that a word
/// names, if there is one.
pub(crate) fn port_range(word: Option<&str>, servers: usize) -> Result<Option<PortRange>, NoPorts>
    ensures names { IfOk result (PortsAs (option_map (λ text. text.now) word.entry)) }
    ensures enough { IfOk result (HasPortsFor servers) }
{
    let Some(word) = word else {
        return Ok(None);
    };
    match ports_in(word) {
        Some(range) => {
            if has_fewer(range, servers) {
                return Err(NoPorts(FEW_PORTS));
            }
            Ok(Some(range))
        }
        None => Err(NoPorts(NO_PORTS)),
    }
}

/// Whether a range has fewer ports than there are servers.
fn has_fewer(range: PortRange, servers: usize) -> bool
    ensures { IsTrue result ↔ ((range.last - range.first) + 1 < servers) }
{
    usize::from(range.last.saturating_sub(range.first)) < servers.saturating_sub(1)
}

/// The range in a word `A:B`, from 1 to 65535 and A at most B; else `None`.
fn ports_in(word: &str) -> Option<PortRange>
    ensures { IfSome result (NamesPorts word.now) }
{
    let (first, last) = split_at_colon(word)?;
    let first = port_in(first)?;
    let last = port_in(last)?;
    if last < first {
        return None;
    }
    Some(PortRange { first, last })
}

/// What is before and after the first colon of a word.
fn split_at_colon(word: &str) -> Option<(&str, &str)>
    ensures { IfSome result (λ parts. word.now ≡ parts.0.now ++ (58 ∷ parts.1.now)) }
{
    word.split_once(':')
}

/// The port in a word, from 1 to 65535; else `None`.
fn port_in(word: &str) -> Option<u16>
    ensures number { IfSome result (λ port. IsNumber 16 (Some word.now) (Some port)) }
    ensures least { IfSome result (λ port. 1 ≤ port) }
{
    match word.parse::<u16>() {
        Ok(port) if port > 0 => Some(port),
        _ => None,
    }
}
