//! The negotiation of both ends: options are judged from the left, and a repeated name precedes
//! every other refusal.

ghost use Rattle.std.specs.Prelude.{◌≡◌, IfOk, List};
ghost use Rattle.std.specs.Iterator.{AlwaysYields, IsFinite};
ghost use Rattle.tftp_wire.specs.Borrowed.{owned_option};
ghost use Rattle.tftp_wire.specs.declared.options.RawOption.{RawOption};
ghost use Rattle.tftp_negotiate.specs.Agreed.{IsAgreement};
ghost use Rattle.tftp_negotiate.specs.Negotiation.{negotiated, kept_after};
ghost use Rattle.tftp_negotiate.specs.Policy.{judged, IsSoundPolicy};

use crate::agreed::Agreed;
use crate::known::Known;
use crate::name::{Name, Names};
use crate::policy::Policy;
use crate::refusal::Refusal;
use tftp_wire::{OptionRef, RawOption};

/// The agreement under the policy on the options that the iterator yields.
pub(crate) fn negotiate<'a, I: Iterator<Item = OptionRef<'a>> + Drop>(
    options: I,
    policy: &Policy,
) -> Result<Agreed, Refusal>
    requires can { I.can_next options }
    requires ends { IsFinite (I.remaining options) }
    requires sound { IsSoundPolicy policy.now }
    ensures agreed { (os : List RawOption) → AlwaysYields I.next_gives owned_option options os
        → result ≡ negotiated (judged policy.now) os }
    ensures rule { IfOk result IsAgreement }
{
    let mut seen = Names::new();
    let mut outcome = Ok(Agreed::new());
    for option in options {
        if !seen.insert(Name::of(option.name)) {
            return Err(Refusal::Repeated);
        }
        outcome = kept_after(outcome, policy.judge(option));
    }
    outcome
}

/// As [`negotiate`], for owned options.
pub(crate) fn negotiate_slice(options: &[RawOption], policy: &Policy) -> Result<Agreed, Refusal>
    requires { IsSoundPolicy policy.now }
    ensures agreed { result ≡ negotiated (judged policy.now) options.now }
    ensures rule { IfOk result IsAgreement }
{
    let borrowed = options.iter().map(RawOption::as_ref);
    negotiate(borrowed, policy)
}

/// Adds the judgement of an option to the outcome: the first refusal stays.
#[inline(never)]
fn kept_after(
    outcome: Result<Agreed, Refusal>,
    judgement: Result<Option<Known>, Refusal>,
) -> Result<Agreed, Refusal>
    requires { IfOk (kept_after outcome judgement) IsAgreement }
    ensures { result ≡ kept_after outcome judgement }
{
    let agreed = outcome?;
    match judgement? {
        Some(known) => Ok(agreed.with(known)),
        None => Ok(agreed),
    }
}
