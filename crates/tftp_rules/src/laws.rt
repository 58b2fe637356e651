//! The invariants of every run of the guarded machine, over the definitions alone, and facts for
//! the proofs of the crates above.

ghost use Rattle.std.specs.Prelude.{List, []};
ghost use Rattle.tftp_rules.specs.EndOpens.{AnswersAreGranted, ReadsOpen, WritesOpen};
ghost use Rattle.tftp_rules.specs.EndShown.{DatagramTurnsAreShown, TimeoutTurnsAreShown};
ghost use Rattle.tftp_rules.specs.Facts.{Holds};
ghost use Rattle.tftp_rules.specs.Refines.{EndsGoOn, EndsOpen, DatagramsAreAdded};
ghost use Rattle.tftp_rules.specs.Hosts.{two_hosts};
ghost use Rattle.tftp_rules.specs.Machine.{Endpoint, Message, Network};
ghost use Rattle.tftp_rules.specs.MachineSafety.{IsSafeMachine, IsCompleted};
ghost use Rattle.tftp_rules.specs.Recorded.{AreRecorded};
ghost use Rattle.tftp_rules.specs.Rules.{Rule, IsLegal, run, start};
ghost use Rattle.tftp_rules.specs.Shows.{EndView, AreApart, IsShown};
ghost use Rattle.tftp_rules.specs.Texts.{EndpointsAreTheirParts, BlocksGoOn, BlocksHaveLengths};
ghost use Rattle.tftp_rules.specs.Texts.{PrefixesJoin, OnlyNothingBeginsNothing};
ghost use Rattle.tftp_rules.specs.ViewSafety.{IsSafeViews, PeersAtHome};

/// After every legal list of rules, in any network, the transfers are safe: the ends of an
/// established transfer have one block size; a receiver's text is a prefix of its peer's text,
/// and all of it once the receiver is complete; the peer of a sender that is complete is complete.
pub fn every_run_is_safe()
    ensures safe { (network : Network) (rules : List Rule) → IsLegal network rules start
        → IsSafeMachine network (run network rules start) }
    ensures facts { (network : Network) (rules : List Rule) → IsLegal network rules start
        → Holds network (run network rules start) }
    ensures recorded { (network : Network) (rules : List Rule) → IsLegal network rules start
        → AreRecorded network (run network rules start) }
{}

/// The rules allow a transfer: in a network of two hosts a read with a block size completes at both
/// ends.
pub fn some_run_completes()
    ensures { (rules : List Rule) × (x : Endpoint) × (y : Endpoint)
        × IsLegal two_hosts rules start × IsCompleted (run two_hosts rules start) x y }
{}

/// Views of ends and messages that refine the machine after some rules are safe, and no two of the
/// ends are at one endpoint. No views and no messages refine it at its start. The claims exclude
/// peers elsewhere; there are none if only the server and its clients send.
pub fn what_is_shown_is_safe()
    ensures start { (network : Network) → IsShown network [] [] }
    ensures apart { (network : Network) (views : List EndView) (messages : List Message)
        → IsShown network views messages → AreApart views }
    ensures safe { (network : Network) (views : List EndView) (messages : List Message)
        → IsShown network views messages → IsSafeViews network views }
    ensures home { (network : Network) (views : List EndView) (messages : List Message)
        → IsShown network views messages → PeersAtHome network views messages }
{}

/// A step of one end for a datagram or a timeout is some rules.
pub fn an_end_goes_on()
    ensures { (network : Network) → EndsGoOn network }
{}

/// An opening is one rule.
pub fn an_end_opens()
    ensures { (network : Network) → EndsOpen network }
{}

/// A datagram that changes no end is one rule: an ERROR, a repeated datagram, one from elsewhere.
pub fn a_datagram_is_added()
    ensures { (network : Network) → DatagramsAreAdded network }
{}

/// A step of an open end of `tftp_ends`, for a datagram or a timeout, is three rules at most, in
/// any network. Its file has a known content: each read may fail, and each append and commit be
/// refused.
pub fn an_open_end_takes_its_turn()
    ensures datagrams { (network : Network) → DatagramTurnsAreShown network }
    ensures timeouts { (network : Network) → TimeoutTurnsAreShown network }
{}

/// A request that no end answers opens an end of the server in any network, and this is one rule,
/// with the first datagram of the end: DATA 1 or ACK 0, or the OACK of the options that the server
/// agrees to.
pub fn a_request_opens_an_end()
    ensures granted { AnswersAreGranted }
    ensures reads { (network : Network) → ReadsOpen network }
    ensures writes { (network : Network) → WritesOpen network }
{}

/// Facts of texts and endpoints, for the proofs of the crates above.
pub fn texts_go_on()
    ensures endpoints { EndpointsAreTheirParts }
    ensures blocks { BlocksGoOn }
    ensures lengths { BlocksHaveLengths }
    ensures joins { PrefixesJoin }
    ensures nothing { OnlyNothingBeginsNothing }
{}
