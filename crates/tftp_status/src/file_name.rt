//! The path of the file of one of several servers.

ghost use Rattle.std.specs.Prelude.{◌≡◌, ◌∷◌, ◌++◌, IfOk, IfSome};
ghost use Rattle.std.specs.String.{string_bytes};
ghost use Rattle.tftp_status.specs.FileName.{IsFileOf};

use std::alloc::{AllocError, Global};

/// The path of the file of one of several servers: its number stands before the ending of the name, as
/// in `tftpd.2.prom`, or behind a name without one.
pub fn file_of_server(alloc: Global, file: &str, server: u8) -> Result<String, AllocError>
    ensures { IfOk result (λ own. IsFileOf file.now server (string_bytes own)) }
{
    match ending_of(file) {
        Some((front, ending)) => format!(in alloc; "{front}.{server}.{ending}"),
        None => format!(in alloc; "{file}.{server}"),
    }
}

/// What is before and behind the last dot of a path, if that is in the name, and not its first letter.
fn ending_of(file: &str) -> Option<(&str, &str)>
    ensures { IfSome result (λ parts. file.now ≡ parts.0.now ++ (46 ∷ parts.1.now)) }
{
    match file.rsplit_once('.') {
        Some((front, ending)) => {
            if ending.contains('/') || front.is_empty() || front.ends_with('/') {
                None
            } else {
                Some((front, ending))
            }
        }
        None => None,
    }
}
