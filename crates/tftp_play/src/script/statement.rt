//! The statements of a script.

ghost use Rattle.std.specs.Prelude.{◌≡◌};
ghost use Rattle.tftp_player.specs.Arriving.{IsPlayable};
ghost use Rattle.tftp_play.specs.Playable.{IsOfNeitherHost};

use crate::script::flaw::{Flaw, Word};
use crate::script::keyword::StatementKind;
use crate::script::line::{LineFault, WORD_COUNT};
use crate::script::word::{asked, bytes, content, endpoint, mode, number};
use std::alloc::Global;
use std::str::FromStr;
use tftp_player::Event;
use tftp_rules::is_foreign;
use tftp_wire::Bytes;

/// A line on which something happens: an event, or one of two statements for a sequence of events;
/// or a comment, at which nothing happens.
#[derive(Drop)]
pub enum Statement {
    /// One event.
    Event(PlayableEvent),
    /// The datagram at this index arrives, then the next, and so on, new ones too.
    Settle(usize),
    /// `count` events are drawn, by the generator of this seed.
    Random { seed: u64, count: u64 },
    /// A line that begins with `#`: what is after it.
    Comment(Bytes),
}

/// An event that a world plays: a stray datagram is of neither host.
#[derive(Drop)]
pub struct PlayableEvent {
    event: Event,
    ghost foreign: { IsOfNeitherHost event },
}

impl PlayableEvent {
    /// The event.
    #[tactic(auto, using(crate::proofs::PlayableLemmas::plays))]
    pub fn into_event(self) -> Event
        ensures event { result ≡ self.event }
        ensures playable { IsPlayable result }
    {
        self.event
    }
}

impl Statement {
    /// The statement for one event.
    #[tactic(auto, using(crate::proofs::PlayableLemmas::of_neither))]
    pub(crate) fn of(event: Event) -> Statement
        requires { IsPlayable event }
    {
        Statement::Event(PlayableEvent { event })
    }
}

/// The statement of a line of this kind.
pub(crate) fn statement_of(
    kind: StatementKind,
    alloc: Global,
    arguments: &[Word<'_>],
    left: &mut usize,
) -> Result<Statement, LineFault> {
    match kind {
        StatementKind::Get => get(alloc, arguments),
        StatementKind::Put => put(alloc, arguments, left),
        StatementKind::Deliver => Ok(Statement::of(Event::Deliver(only_number(arguments)?))),
        StatementKind::Timeout => Ok(Statement::of(Event::Timeout(only_number(arguments)?))),
        StatementKind::Refuse => Ok(Statement::of(Event::RefuseStore(only_number(arguments)?))),
        StatementKind::Settle => Ok(Statement::Settle(only_number(arguments)?)),
        StatementKind::Random => random(arguments),
        StatementKind::Stray => stray(alloc, arguments),
    }
}

/// `get NAME MODE OPTIONS`: a client reads a file.
fn get(alloc: Global, arguments: &[Word<'_>]) -> Result<Statement, LineFault> {
    let [name, word, options @ ..] = arguments else {
        return Err(WORD_COUNT);
    };
    let mode = mode(word)?;
    let asked = asked(options, 0)?;
    let name = Bytes::from_slice(alloc, name.bytes)?;
    Ok(Statement::of(Event::Get { name, mode, asked }))
}

/// `put NAME MODE CONTENT OPTIONS`: a client writes a file.
fn put(alloc: Global, arguments: &[Word<'_>], left: &mut usize) -> Result<Statement, LineFault> {
    let [name, word, file, options @ ..] = arguments else {
        return Err(WORD_COUNT);
    };
    let mode = mode(word)?;
    let file = content(alloc, file, left)?;
    let asked = asked(options, file.len() as u64)?;
    let name = Bytes::from_slice(alloc, name.bytes)?;
    let bytes = Bytes::from(file);
    Ok(Statement::of(Event::Put {
        name,
        mode,
        asked,
        bytes,
    }))
}

/// `stray FROM TO HEX`: a datagram of neither host arrives.
fn stray(alloc: Global, arguments: &[Word<'_>]) -> Result<Statement, LineFault> {
    let [from, to, digits] = arguments else {
        return Err(WORD_COUNT);
    };
    let sender = endpoint(from)?;
    if !is_foreign(&sender) {
        return Err(from.fault(Flaw::OwnHost));
    }
    let to = endpoint(to)?;
    let bytes = bytes(alloc, digits)?;
    Ok(Statement::of(Event::Stray(sender, to, bytes)))
}

/// `random SEED COUNT`: that many events are drawn.
fn random(arguments: &[Word<'_>]) -> Result<Statement, LineFault> {
    let [seed, count] = arguments else {
        return Err(WORD_COUNT);
    };
    Ok(Statement::Random {
        seed: number(seed)?,
        count: number(count)?,
    })
}

/// The number that is the only argument.
fn only_number<N: FromStr>(arguments: &[Word<'_>]) -> Result<N, LineFault>
where
    N::Err: Drop,
{
    match arguments {
        [word] => number(word),
        _ => Err(WORD_COUNT),
    }
}
