//! How a server is told to drain.

ghost use Rattle.std.specs.Prelude.{◌≡◌, false};

/// Tells a server to drain: to take no new request, to finish what is open, and then to end.
pub trait DrainSignal {
    /// Whether the signal was given by now. It comes from outside the program, so no clause says
    /// when.
    fn is_given(&self) -> bool;
}

/// A signal that is never given.
#[derive(Clone, Copy)]
pub struct NoSignal;

impl DrainSignal for NoSignal {
    fn is_given(&self) -> bool
        ensures { result ≡ false }
    {
        false
    }
}
