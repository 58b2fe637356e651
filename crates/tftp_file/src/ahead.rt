//! A source that is read ahead of its fills.

ghost use Rattle.std.specs.Prelude.{◌≡◌, ◌≤◌, ◌<◌, ◌+◌, ◌++◌, ◌⊎◌, [], length, drop, take};
ghost use Rattle.std.specs.Prelude.{true, false, Ok, Err, IfOk, IfErr, OnOk, OnErr};
ghost use Rattle.std.specs.Io.KnownBytes.{prepend_known};
ghost use Rattle.tftp_file.specs.Source.{Fills, StaysKnown};
ghost use Rattle.tftp_file.specs.Ahead.{new_ahead};
ghost use Rattle.std.specs.Prelude.{ℕ, vec_len, vec_capacity};

use crate::{FileFault, Source};
use std::alloc::Global;
use std::marker::Model;
use std::mem;
use tftp_wire::HEADER;

/// A source over another source, which can be read ahead: the next block is read while the peer
/// handles the current one, and not while the peer waits for it.
///
/// Its text is the bytes read ahead, followed by the text of the source below. It reads ahead as
/// many bytes as the last fill requested. After a failed read ahead each fill returns `Read`. If a
/// fill requests exactly the bytes read ahead, and its buffer holds the header of a datagram, the
/// two buffers are exchanged, and no byte of the block is copied.
///
/// Its model is the source below, the bytes read ahead, the number of bytes that the last fill
/// requested, and whether a read ahead failed.
#[derive(Drop)]
pub struct Ahead<S> {
    source: S,
    /// Space for the header of a datagram, followed by the bytes read ahead.
    buffer: Vec<u8>,
    /// The offset in the buffer of the bytes that no fill has moved yet.
    at: usize,
    /// The number of bytes that the last fill requested.
    size: usize,
    failed: bool,
}

impl<S> Model for Ahead<S> {
    ghost use Rattle.std.specs.Prelude.{drop, vec_len, ◌≤◌};
    ghost use Rattle.tftp_file.specs.Ahead.{AheadState};

    ghost Value = { AheadState S };

    ghost view = { λ a. record {
      source = a.source;
      held = drop a.at a.buffer.items;
      size = a.size;
      failed = a.failed;
    } };

    ghost invariant = { λ a. a.at ≤ vec_len a.buffer };
}

impl<S> Ahead<S> {
    /// A source over another, with nothing read ahead. Allocates no memory.
    pub fn new(alloc: Global, source: S) -> Ahead<S>
        ensures { result ≡ new_ahead source }
    {
        Ahead {
            source,
            buffer: Vec::new(alloc),
            at: 0,
            size: 0,
            failed: false,
        }
    }

    /// The source below. The bytes read ahead are lost.
    pub fn into_inner(self) -> S
        ensures { result ≡ self.source }
    {
        self.source
    }
}

impl<S: Source> Source for Ahead<S> {
    ghost use Rattle.std.specs.Prelude.{◌≡◌, ◌≤◌, ◌+◌, ◌⊎◌, [], true, false, length, Err};
    ghost use Rattle.std.specs.Prelude.{vec_capacity};
    ghost use Rattle.std.specs.Io.KnownBytes.{prepend_known};
    ghost use Rattle.tftp_file.specs.Source.{Fills, ReadsAhead};
    ghost use Rattle.tftp_file.specs.Ahead.{ahead_meaning, MayFailLater};

    ghost meaning = { ahead_meaning S.meaning S.is_same };

    /// The source below is the same, and a read ahead that failed stays so.
    ghost is_same = { λ a b. S.is_same a.source b.source × (a.failed ≡ true → b.failed ≡ true) };

    ghost stays = { λ a. (S.stays a.source, λ failed. failed) };

    ghost joins = { λ a b c p q. (
      S.joins a.source b.source c.source p.0 q.0,
      λ failed. q.1 (p.1 failed),
    ) };

    ghost unmoved = { λ _. tt };

    /// After a failed read ahead it returns `Read`, and nothing changes.
    fn fill(&mut self, want: usize, out: &mut Vec<u8>) -> Result<usize, FileFault>
        ensures fills { Fills
            (prepend_known self.old.held (S.meaning.left self.old.source))
            (prepend_known self.new.held (S.meaning.left self.new.source)) want
            out.old.items out.new.items result }
        ensures read { result ≡ Err FileFault.Read → (self.old.failed ≡ true)
            ⊎ MayFailLater S.meaning S.is_same self.old.source }
        ensures fails { (self.old.failed ≡ true)
            ⊎ ((self.old.held ≡ []) × S.meaning.fails self.old.source want)
            → result ≡ Err FileFault.Read }
        ensures capacity { vec_capacity out.old ≤ vec_capacity out.new }
        ensures same { S.is_same self.old.source self.new.source
            × (self.old.failed ≡ true → self.new.failed ≡ true) }
        ensures failed { self.old.failed ≡ true → self.new ≡ self.old }
        ensures size { self.old.failed ≡ false → self.new.size ≡ want }
    {
        if self.failed {
            return Err(FileFault::Read);
        }
        self.size = want;
        fill_ahead(&mut self.source, &mut self.buffer, &mut self.at, want, out)
    }

    /// After a failed read ahead it does nothing. It reads at most as many bytes as the last fill
    /// requested.
    fn read_ahead(&mut self)
        ensures ahead { ReadsAhead (ahead_meaning S.meaning S.is_same) self.old self.new }
        ensures same { S.is_same self.old.source self.new.source
            × (self.old.failed ≡ true → self.new.failed ≡ true) }
        ensures failed { self.old.failed ≡ true → self.new ≡ self.old }
        ensures few { length self.new.held ≤ length self.old.held + self.old.size }
    {
        if self.failed || self.size == 0 || self.at < self.buffer.len() {
            return;
        }
        self.failed = read_block(&mut self.source, &mut self.buffer, &mut self.at, self.size);
    }
}

/// Fills from the buffer, from offset `at` on, and then from the source.
fn fill_ahead<S: Source>(
    source: &mut S,
    buffer: &mut Vec<u8>,
    at: &mut usize,
    want: usize,
    out: &mut Vec<u8>,
) -> Result<usize, FileFault>
    requires { at.old ≤ vec_len buffer.old }
    ensures within { at.new ≤ vec_len buffer.new }
    ensures fills { Fills
        (prepend_known (drop at.old buffer.old.items) (S.meaning.left source.old))
        (prepend_known (drop at.new buffer.new.items) (S.meaning.left source.new)) want
        out.old.items out.new.items result }
    ensures read { result ≡ Err FileFault.Read → (n : ℕ) × S.meaning.may_fail source.old n }
    ensures fails { drop at.old buffer.old.items ≡ [] → S.meaning.fails source.old want
        → result ≡ Err FileFault.Read }
    ensures capacity { vec_capacity out.old ≤ vec_capacity out.new }
    ensures same { S.is_same source.old source.new }
{
    let held = buffer.len() - *at;
    if held == 0 {
        return source.fill(want, out);
    }
    if want <= held {
        return take_held(buffer, at, want, out);
    }
    match fill_after(&buffer[*at..], source, want, out) {
        Ok(count) => {
            buffer.clear();
            *at = 0;
            Ok(count)
        }
        Err(fault) => Err(fault),
    }
}

/// Moves the next bytes of the buffer, from offset `at` on, to the end of `out`.
fn take_held(
    buffer: &mut Vec<u8>,
    at: &mut usize,
    want: usize,
    out: &mut Vec<u8>,
) -> Result<usize, FileFault>
    requires { at.old + want ≤ vec_len buffer.old }
    ensures within { at.new ≤ vec_len buffer.new }
    ensures count { IfOk result (λ count. count ≡ want) }
    ensures given { OnOk result (out.new.items
        ≡ out.old.items ++ take want (drop at.old buffer.old.items)) }
    ensures rest { OnOk result (drop at.new buffer.new.items
        ≡ drop want (drop at.old buffer.old.items)) }
    ensures err { OnErr result (out.new.items ≡ out.old.items) }
    ensures kept { OnErr result (drop at.new buffer.new.items ≡ drop at.old buffer.old.items) }
    ensures fault { IfErr result (λ fault. fault ≡ FileFault.Memory) }
    ensures capacity { vec_capacity out.old ≤ vec_capacity out.new }
{
    if *at == HEADER && out.len() == HEADER && out.capacity() <= buffer.capacity() {
        if buffer.len() - *at == want {
            exchange(buffer, out);
            return Ok(want);
        }
    }
    let Ok(()) = out.extend_from_slice(&buffer[*at..*at + want]) else {
        return Err(FileFault::Memory);
    };
    *at += want;
    Ok(want)
}

/// Writes the bytes of `out` over the start of the buffer, and exchanges the two.
fn exchange(buffer: &mut Vec<u8>, out: &mut Vec<u8>)
    requires { length out.old.items ≤ length buffer.old.items }
    ensures items { out.new.items
        ≡ out.old.items ++ drop (length out.old.items) buffer.old.items }
    ensures head { buffer.new.items ≡ out.old.items }
    ensures capacity { vec_capacity out.new ≡ vec_capacity buffer.old }
{
    put_head(out.as_slice(), buffer.as_mut_slice());
    mem::swap(buffer, out);
}

fn put_head(head: &[u8], buffer: &mut [u8])
    requires { length head.now ≤ length buffer.old }
    ensures { buffer.new ≡ head.now ++ drop (length head.now) buffer.old }
{
    buffer[..head.len()].copy_from_slice(head);
}

/// Fills with all the held bytes, and then from the source.
fn fill_after<S: Source>(
    held: &[u8],
    source: &mut S,
    want: usize,
    out: &mut Vec<u8>,
) -> Result<usize, FileFault>
    requires { length held.now ≤ want }
    ensures ok { IfOk result (λ count. Fills
        (prepend_known held.now (S.meaning.left source.old)) (S.meaning.left source.new) want
        out.old.items out.new.items (Ok count)) }
    ensures err { IfErr result (λ fault. Fills
        (prepend_known held.now (S.meaning.left source.old))
        (prepend_known held.now (S.meaning.left source.new)) want
        out.old.items out.new.items (Err fault)) }
    ensures read { result ≡ Err FileFault.Read → (n : ℕ) × S.meaning.may_fail source.old n }
    ensures capacity { vec_capacity out.old ≤ vec_capacity out.new }
    ensures same { S.is_same source.old source.new }
{
    let start = out.len();
    let Ok(()) = out.extend_from_slice(held) else {
        return Err(FileFault::Memory);
    };
    match source.fill(want - held.len(), out) {
        Ok(count) => Ok(held.len() + count),
        Err(fault) => {
            out.truncate(start);
            Err(fault)
        }
    }
}

/// Reads the next `size` bytes, after space for the header of a datagram, and returns whether the
/// read failed. Out of memory nothing is read.
fn read_block<S: Source>(source: &mut S, buffer: &mut Vec<u8>, at: &mut usize, size: usize) -> bool
    ensures within { at.new ≤ vec_len buffer.new }
    ensures left { result ≡ false → StaysKnown (S.meaning.left source.old)
        (prepend_known (drop at.new buffer.new.items) (S.meaning.left source.new)) }
    ensures read { result ≡ true → S.meaning.may_fail source.old size }
    ensures fails { S.meaning.fails source.old size → (result ≡ true)
        ⊎ ((source.new ≡ source.old) × (drop at.new buffer.new.items ≡ [])) }
    ensures few { length (drop at.new buffer.new.items) ≤ size }
    ensures same { S.is_same source.old source.new }
{
    buffer.clear();
    *at = 0;
    if buffer.resize(HEADER, 0).is_err() {
        return false;
    }
    *at = HEADER;
    match source.fill(size, buffer) {
        Ok(_) => false,
        Err(FileFault::Read) => true,
        Err(FileFault::Memory) => false,
    }
}
