//! The path of a request's file name.

ghost use Rattle.std.specs.Prelude.{◌≡◌, ◌==◌, ℕ, List, IfOk, IfErr, Some, count_by, refl, nat_eq};
ghost use Rattle.std.specs.Ordering.{nat_cmp};
ghost use Rattle.std.specs.Cmp.{partial_equiv_from_equiv};
ghost use Rattle.std.specs.Cmp.Lexicographic.{pointwise, slice_cmp, nat_list_eq_equiv};
ghost use Rattle.std.specs.Cmp.Lexicographic.{nat_list_cmp_total, texts_ties, texts_po};
ghost use Rattle.std.specs.List.{list_all, slice_split};
ghost use Rattle.tftp_file.specs.Path.{path_fault_number, AnswersPath, path_of_name, checked_path};
ghost use Rattle.tftp_file.specs.Path.{is_segment, is_name_byte, IsPath};

use std::alloc::{AllocError, Global};
use std::cmp::Ordering;
use std::marker::Model;
use thiserror::Error;

const SLASH: u8 = b'/';

const MAX_LENGTH: usize = 255;

const MAX_DEPTH: usize = 8;

const MAX_SEGMENT: usize = 64;

/// A fault of a name that is not a path, or out of memory.
#[derive(Clone, Copy, Debug, PartialEq, Eq, Error)]
pub enum PathFault {
    /// The name is empty without its leading slash.
    #[error("the name is empty")]
    Empty = 1,
    /// A segment is empty, longer than 64 bytes, begins with a dot or has a byte other than
    /// letters, digits, dot, underscore and dash.
    #[error("a segment of the name is not allowed")]
    Segment = 2,
    /// The name has more than 8 segments.
    #[error("the name has too many segments")]
    Depth = 3,
    /// The name is longer than 255 bytes without its leading slash.
    #[error("the name is too long")]
    Length = 4,
    /// Out of memory; the name is not at fault.
    #[error("out of memory")]
    Memory = 5,
}

impl PathFault {
    /// The number of the fault, 1 to 5. It is not the order of the tests.
    pub fn number(self) -> u8
        ensures { result ≡ path_fault_number self }
    {
        self as u8
    }
}

impl From<AllocError> for PathFault {
    ghost use Rattle.std.specs.Prelude.{◌≡◌};
    ghost use Rattle.tftp_file.specs.declared.path.PathFault.TheVariants.{Memory};

    ghost from_gives = { λ _ fault. fault ≡ Memory };

    fn from(_error: AllocError) -> PathFault {
        PathFault::Memory
    }
}

/// The path of a file below the root of a store: 1 to 8 segments separated by slashes, without a
/// leading slash. It is case-sensitive. Its model is its bytes.
#[derive(Debug, Drop)]
pub struct Path {
    bytes: Vec<u8>,
}

impl Model for Path {
    ghost use Rattle.std.specs.Prelude.{List, ℕ};
    ghost use Rattle.tftp_file.specs.Path.{IsPath};

    ghost Value = { List ℕ };

    ghost view = { λ path. path.bytes.items };

    ghost invariant = { λ path. IsPath path.bytes.items };
}

impl Path {
    /// The bytes of the path, in ASCII.
    pub fn as_bytes(&self) -> &[u8]
        ensures value { result.now ≡ self.now }
        ensures path { IsPath self.now }
    {
        self.bytes.as_slice()
    }
}

/// The path that a request's name spells, without its leading slash.
///
/// The faults are tested in the order `Empty`, `Length`, `Depth`, `Segment`. `Memory` is returned
/// only for a name without a fault.
pub fn path_of(alloc: Global, name: &[u8]) -> Result<Path, PathFault>
    ensures { AnswersPath (path_of_name name.now) result }
{
    let path = match name {
        [SLASH, rest @ ..] => rest,
        _ => name,
    };
    check(path)?;
    Ok(Path {
        bytes: Vec::from_slice(alloc, path)?,
    })
}

/// The first fault of a name without its leading slash.
#[tactic(auto, using(crate::proofs::PathLemmas::deep, crate::proofs::PathLemmas::bad_segment, crate::proofs::PathLemmas::good))]
fn check(path: &[u8]) -> Result<(), PathFault>
    ensures ok { IfOk result (λ _. checked_path path.now ≡ Ok path.now) }
    ensures path { IfOk result (λ _. IsPath path.now) }
    ensures err { IfErr result (λ fault. checked_path path.now ≡ Err fault) }
{
    if path.is_empty() {
        return Err(PathFault::Empty);
    }
    if path.len() > MAX_LENGTH {
        return Err(PathFault::Length);
    }
    if slash_count(path) >= MAX_DEPTH {
        return Err(PathFault::Depth);
    }
    if !has_good_segments(path) {
        return Err(PathFault::Segment);
    }
    Ok(())
}

fn slash_count(path: &[u8]) -> usize
    ensures { result ≡ count_by (λ byte. byte == 47) path.now }
{
    let mut count = 0;
    for byte in path {
        count += usize::from(*byte == SLASH);
    }
    count
}

/// Whether each part between the slashes is a segment.
fn has_good_segments(path: &[u8]) -> bool
    ensures { result ≡ list_all is_segment (slice_split (λ byte. byte == 47) path.now) }
{
    path.split(|byte| *byte == SLASH)
        .all(|part| is_segment(part))
}

/// Whether the bytes are a segment: 1 to 64 name bytes, the first of which is not a dot.
#[tactic(auto, using(crate::proofs::PathLemmas::segment_cases))]
fn is_segment(part: &[u8]) -> bool
    ensures { result ≡ is_segment part.now }
{
    match part {
        [] | [b'.', ..] => false,
        _ => part.len() <= MAX_SEGMENT && has_name_bytes(part),
    }
}

fn has_name_bytes(part: &[u8]) -> bool
    ensures { result ≡ list_all is_name_byte part.now }
{
    for byte in part {
        if !is_name_byte(*byte) {
            return false;
        }
    }
    true
}

/// Whether the byte is allowed in a segment.
fn is_name_byte(byte: u8) -> bool
    ensures { result ≡ is_name_byte byte }
{
    matches!(byte, b'A'..=b'Z' | b'a'..=b'z' | b'0'..=b'9' | b'.' | b'_' | b'-')
}

impl Clone for Path {
    ghost is_clone = { λ path copy. copy ≡ path };

    fn clone(&self) -> Result<Path, AllocError> {
        Ok(Path {
            bytes: self.bytes.clone()?,
        })
    }
}

impl PartialEq for Path {
    ghost eq = { pointwise nat_eq };

    ghost laws = { partial_equiv_from_equiv nat_list_eq_equiv };

    fn eq(&self, other: &Path) -> bool {
        self.as_bytes() == other.as_bytes()
    }
}

impl Eq for Path {
    ghost laws = { nat_list_eq_equiv };
}

impl PartialOrd for Path {
    ghost partial_cmp = { λ x y. Some (slice_cmp nat_cmp x y) };

    ghost laws = { texts_po };

    fn partial_cmp(&self, other: &Path) -> Option<Ordering> {
        Some(self.cmp(other))
    }
}

impl Ord for Path {
    ghost cmp = { slice_cmp nat_cmp };

    ghost total = { nat_list_cmp_total };

    ghost matches_partial_cmp = { λ x y. refl };

    ghost matches_eq = { texts_ties };

    fn cmp(&self, other: &Path) -> Ordering {
        self.as_bytes().cmp(other.as_bytes())
    }
}
