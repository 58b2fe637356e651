//! The trace of a device.

ghost use Rattle.std.specs.Prelude.{◌≡◌};

use std::marker::Model;
use std::snapshot::Snapshot;

/// What a trace consists of. A value of this type is an empty trace to clauses, and `after` is the
/// trace with one event more, which is read off a value of `R`.
pub trait Kind<R> {
    ghost after: { R → Self → Self };
}

/// What a device did, as clauses see a value of `K`.
#[derive(Drop)]
pub struct Events<K> {
    seen: Snapshot<K>,
}

impl<K> Model for Events<K> {
    ghost Value = { K };

    ghost coded = { K.code };

    ghost view = { λ e. e.seen.value };
}

/// A trace. Who has no value of `K` can make none.
#[derive(Drop)]
pub struct Trace<K> {
    events: Events<K>,
}

impl<K> Trace<K> {
    /// A trace without an event.
    pub fn new(empty: &K) -> Trace<K>
        ensures { result.events ≡ empty.now }
    {
        Trace {
            events: Events {
                seen: Snapshot::of(empty),
            },
        }
    }

    /// Notes an event.
    pub fn note<R>(&mut self, event: &R)
    where
        K: Kind<R>,
        ensures { self.new.events ≡ K.after event.now self.old.events }
    {
        note(&mut self.events.seen, event);
    }
}

/// Exchanges what clauses see of the trace. It is proved by hand, since it sets what has no bytes.
fn note<R, K: Kind<R>>(_seen: &mut Snapshot<K>, _event: &R)
    ensures { _seen.new.value ≡ K.after _event.now _seen.old.value }
{}
