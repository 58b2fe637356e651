//! Which of several servers takes a request.

ghost use Rattle.std.specs.Prelude.{◌≡◌, ◌≢◌, ◌≤◌, ◌<◌, ◌-◌, ◌↔◌, None};
ghost use Rattle.std.specs.Prelude.{IfNone, IfSome, IsSome, IsTrue};
ghost use Rattle.tftp_service.specs.Looks.{HasPart, MayLeave, noted_at, settled_at};
ghost use Rattle.tftp_service.specs.Share.{debt_at, left_since, owed_after, pause_of, used_after};

use std::cell::Cell;
use tftp_ends::Endpoint;
use tftp_sockets::{Load, ServerSocket, ServerUdp};

/// How long a server that has opened a transfer leaves requests to the others, in microseconds for
/// each that it has open.
const PAUSE: u64 = 100;

/// The most transfers that count for that.
const MOST_COUNTED: usize = 30;

/// How long a server that may open no more leaves a request, in microseconds.
const FULL_PAUSE: u64 = 10_000;

/// The part of its time for which a server leaves requests at most: an eighth.
const PART: u64 = 8;

/// The time of which it may have saved that part, in microseconds: 40 ms of leaving.
const SAVED: u64 = 320_000;

/// When a server takes a request, which all of them find. One that has opened a transfer first leaves
/// requests to the others for a pause, which passes only while one waits: so each opens about as
/// many. One that may open no more leaves each for longer, since it would refuse it. Where requests
/// keep coming pauses would hold them up, and a server that leaves them spins: so it leaves them for a
/// part of its time at most.
#[derive(Drop)]
pub(crate) struct Share {
    debt: Cell<Debt>,
    /// What a server that may open no more leaves to the others, if it leaves something.
    left: Cell<Option<Left>>,
}

/// How long a server is to leave requests to the others. Times are by the monotonic clock, in
/// microseconds.
#[derive(Clone, Copy)]
struct Debt {
    /// The number of its transfers when it looked for a request last.
    transfers: usize,
    /// How long it is still to leave requests, in microseconds.
    owed: u64,
    /// Up to when the part of its time is used up.
    used: u64,
    /// When it looked last, if it left a request then.
    left_at: Option<u64>,
}

/// A request that a server leaves to the others.
#[derive(Clone, Copy)]
struct Left {
    from: Endpoint,
    /// When it was found, by the monotonic clock in microseconds.
    found: u64,
}

impl Share {
    /// Of a server that has found no request.
    pub(crate) fn new() -> Share {
        let debt = Debt {
            transfers: 0,
            owed: 0,
            used: 0,
            left_at: None,
        };
        Share {
            debt: Cell::new(debt),
            left: Cell::new(None),
        }
    }

    /// Whether a server with this load leaves what waits at the request port to the others. If the
    /// clock cannot be read it leaves nothing.
    pub(crate) fn leaves<N: ServerUdp>(&self, net: &N, requests: &ServerSocket, load: Load) -> bool
        ensures { IsTrue result → 1 ≤ load.open }
    {
        if load.open == 0 {
            self.debt.set(self.debt.get().settled(load));
            return false;
        }
        let Some(now) = net.micros() else {
            return false;
        };
        let debt = self.debt.get().at(load, now);
        let sender = net.first_sender(requests);
        let leaves = self.leaves_of(sender, load, now, debt);
        self.debt.set(debt.noted(leaves, now));
        leaves
    }

    /// Whether a server with this debt leaves what waits, from this sender, to the others.
    fn leaves_of(&self, sender: Option<Endpoint>, load: Load, now: u64, debt: Debt) -> bool
        ensures found { IsTrue result → IsSome sender }
        ensures part { IsTrue result → HasPart now debt }
    {
        if is_full(load) {
            return self.leaves_when_full(sender, load, now, debt);
        }
        debt.is_due(now) && sender.is_some()
    }

    /// Whether a server that may open no more leaves what waits, from this sender, to the others.
    fn leaves_when_full(&self, sender: Option<Endpoint>, load: Load, now: u64, debt: Debt) -> bool
        ensures found { IsTrue result → IsSome sender }
        ensures part { IsTrue result → HasPart now debt }
    {
        let left = left_by(sender, self.left.get(), load, now);
        self.left.set(left);
        left.is_some() && debt.has_part(now)
    }
}

impl Debt {
    /// The debt of a server with this load that leaves no request for a time.
    fn settled(self, load: Load) -> Debt
        ensures { result ≡ settled_at load self }
    {
        Debt {
            transfers: load.open,
            owed: 0,
            left_at: None,
            ..self
        }
    }

    /// The debt of a server with this load at this time, before it looks for a request.
    fn at(self, load: Load, now: u64) -> Debt
        ensures { result ≡ debt_at load now self }
    {
        let left = left_since(self.left_at, now);
        Debt {
            transfers: load.open,
            owed: self.owed_after(load, left),
            used: used_after(self.used, now, left),
            left_at: None,
        }
    }

    /// How long a server is to leave requests, once it has left them for so long and has this load:
    /// for a pause if it has opened a transfer, and no more if one has closed.
    fn owed_after(self, load: Load, left: u64) -> u64
        ensures value { result ≡ owed_after load left self }
        ensures opened { self.transfers < load.open → result ≡ pause_of load }
        ensures closed { load.open < self.transfers → result ≡ 0 }
        ensures left { load.open ≡ self.transfers → result ≡ self.owed - left }
    {
        if load.open > self.transfers {
            return pause_of(load);
        }
        if load.open < self.transfers {
            return 0;
        }
        self.owed.saturating_sub(left)
    }

    /// Whether a request that waits is left: the server owes time, and has not used up its part.
    fn is_due(self, now: u64) -> bool
        ensures { IsTrue result ↔ MayLeave now self }
    {
        if self.owed == 0 {
            return false;
        }
        self.has_part(now)
    }

    /// Whether the part of its time is not used up at this time.
    fn has_part(self, now: u64) -> bool
        ensures { IsTrue result ↔ HasPart now self }
    {
        self.used < now
    }

    /// The debt once it is known whether the server leaves a request.
    fn noted(self, leaves: bool, now: u64) -> Debt
        ensures { result ≡ noted_at leaves now self }
    {
        let left_at = if leaves { Some(now) } else { None };
        Debt { left_at, ..self }
    }
}

/// How long a request was left since the server looked last, if it left one then.
fn left_since(left_at: Option<u64>, now: u64) -> u64
    ensures { result ≡ left_since left_at now }
{
    match left_at {
        Some(time) => now.saturating_sub(time),
        None => 0,
    }
}

/// Up to when the part of a server's time is used up, once it has left requests for so long more.
fn used_after(used: u64, now: u64, left: u64) -> u64
    ensures { result ≡ used_after used now left }
{
    let from = used.max(now.saturating_sub(SAVED));
    from.saturating_add(left.saturating_mul(PART))
}

/// What a server that may open no more leaves of what this sender, if there is one, has sent.
fn left_by(sender: Option<Endpoint>, left: Option<Left>, load: Load, now: u64) -> Option<Left>
    ensures none { IfNone sender (result ≡ None) }
    ensures over { IfSome result (λ left. now - left.found < pause_of load) }
{
    let from = sender?;
    let left = first_found(left, Left { from, found: now });
    if is_over(left.found, now, pause_of(load)) {
        return None;
    }
    Some(left)
}

/// The request for which the pause of a server that may open no more counts: each has a pause of its
/// own, since it would be refused.
fn first_found(left: Option<Left>, new: Left) -> Left
    ensures none { IfNone left (result ≡ new) }
    ensures same { IfSome left (λ left. left.from ≡ new.from → result ≡ left) }
    ensures other { IfSome left (λ left. left.from ≢ new.from → result ≡ new) }
{
    match left {
        Some(left) => if left.from == new.from { left } else { new },
        None => new,
    }
}

/// How long a server with this load leaves requests to the others, in microseconds.
fn pause_of(load: Load) -> u64
    ensures value { result ≡ pause_of load }
    // A server without transfers takes what it finds at once.
    ensures none { load.open ≡ 0 → result ≡ 0 }
    // One that may open no more leaves it longer than each that may.
    ensures room { load.open < load.cap → result ≤ 3000 }
    ensures full { 1 ≤ load.open → load.cap ≤ load.open → 3000 < result }
    ensures longest { result ≤ FULL_PAUSE }
{
    if load.open == 0 {
        return 0;
    }
    if is_full(load) {
        return FULL_PAUSE;
    }
    load.open.min(MOST_COUNTED) as u64 * PAUSE
}

/// Whether a server with this load may open no more transfers.
fn is_full(load: Load) -> bool
    ensures { IsTrue result ↔ (load.cap ≤ load.open) }
{
    load.open >= load.cap
}

/// Whether a pause is over, for a request that was found at this time.
fn is_over(found: u64, now: u64, pause: u64) -> bool
    ensures { IsTrue result ↔ (pause ≤ now - found) }
{
    pause <= now.saturating_sub(found)
}
