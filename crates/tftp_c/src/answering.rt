//! A server's answer to the options of a request, with a longest timeout of its own.

ghost use Rattle.std.specs.Prelude.{◌≡◌, ◌⊎◌, IfOk, IfErr, Ok};
ghost use Rattle.tftp_wire.specs.Borrowed.{owned_request};
ghost use Rattle.tftp_negotiate.specs.Agreed.{IsAgreement};
ghost use Rattle.tftp_negotiate.specs.Answer.{answer};
ghost use Rattle.tftp_negotiate.specs.Negotiation.{is_name};
ghost use Rattle.tftp_negotiate.specs.Options.{name_of};
ghost use Rattle.tftp_negotiate.specs.declared.name.Name.TheVariants.{Timeout};
ghost use Rattle.tftp_negotiate.specs.Ranges.{IsBlockSize};
ghost use Rattle.tftp_c.specs.Answers.{answer_to, is_long, without_timeout};
ghost use Rattle.tftp_c.specs.Faults.{AnswerRefused, RefusedAs, refusal_fault};

use crate::event::{self, TftpOptions};
use std::alloc::{AllocError, Global};
use tftp_negotiate::{Agreed, Kind, Limits, Name, Refusal, accept, accept_ref};
use tftp_wire::{OptionRef, OptionsIter, RawOption, RequestRef};

/// The number of a refusal.
fn refused(refusal: Refusal) -> u8
    ensures { result ≡ refusal_fault refusal }
{
    match refusal {
        Refusal::Repeated => event::REFUSED_OPTIONS,
        Refusal::TooLarge => event::OVER_LIMIT,
        Refusal::NotAsked => event::REFUSED_OPTIONS,
        Refusal::BadValue => event::REFUSED_OPTIONS,
    }
}

/// Whether a timeout is longer than the longest one, where 0 is for any.
fn is_long(longest: u8, timeout: Option<u8>) -> bool
    ensures { result ≡ is_long longest timeout }
{
    match timeout {
        Some(seconds) => longest != 0 && longest < seconds,
        None => false,
    }
}

fn is_timeout(option: &OptionRef<'_>) -> bool
    ensures { result ≡ is_name Timeout (name_of option.now.name.now) }
{
    match Name::of(option.name) {
        Some(Name::Timeout) => true,
        Some(Name::Blksize) => false,
        Some(Name::Tsize) => false,
        None => false,
    }
}

/// The options but those of the name `timeout`. It fails only when out of memory.
fn without_timeout(
    alloc: Global,
    mut options: OptionsIter<'_>,
) -> Result<Vec<RawOption>, AllocError>
    ensures { IfOk result (λ kept. kept.items ≡ without_timeout options.entry) }
{
    let mut kept = Vec::new(alloc);
    while let Some(option) = options.next() {
        if !is_timeout(&option) {
            kept.push(option.to_option(alloc)?)?;
        }
    }
    Ok(kept)
}

/// The answer without a timeout, or the number of a fault.
fn answer_without(
    alloc: Global,
    request: &RequestRef<'_>,
    kind: Kind,
    length: u64,
    limits: &Limits,
) -> Result<Agreed, u8>
    requires { IsBlockSize limits.now.max_block }
    ensures ok { IfOk result (λ agreed. answer (without_timeout (owned_request request.now).options)
        kind request.now.mode length limits.now ≡ Ok agreed) }
    ensures rule { IfOk result IsAgreement }
    ensures err { IfErr result (λ returned. (returned ≡ 3) ⊎ RefusedAs (answer (without_timeout
        (owned_request request.now).options) kind request.now.mode length limits.now) returned) }
{
    let Ok(kept) = without_timeout(alloc, request.options.iter()) else {
        return Err(event::MEMORY);
    };
    match accept(kept.as_slice(), kind, request.mode, length, limits) {
        Ok(agreed) => Ok(agreed),
        Err(refusal) => Err(refused(refusal)),
    }
}

/// The answer, or the number of a fault. `length` is the length of the file to read; a write ignores it.
pub(crate) fn answer(
    alloc: Global,
    options: &TftpOptions,
    request: &RequestRef<'_>,
    kind: Kind,
    length: u64,
    limits: &Limits,
) -> Result<Agreed, u8>
    requires { IsBlockSize limits.now.max_block }
    ensures ok { IfOk result (λ agreed. answer_to options.now (owned_request request.now) kind length
        limits.now ≡ Ok agreed) }
    ensures rule { IfOk result IsAgreement }
    ensures err { IfErr result (AnswerRefused options.now (owned_request request.now) kind length
        limits.now) }
{
    match accept_ref(&request.options, kind, request.mode, length, limits) {
        Ok(agreed) => {
            if is_long(options.max_timeout, agreed.timeout()) {
                return answer_without(alloc, request, kind, length, limits);
            }
            Ok(agreed)
        }
        Err(refusal) => Err(refused(refusal)),
    }
}
