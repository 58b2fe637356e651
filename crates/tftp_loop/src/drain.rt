//! Whether a server takes new requests.

ghost use Rattle.std.specs.Prelude.{◌≡◌};
ghost use Rattle.tftp_loop.specs.Steps.{drain_of, is_draining};

/// Whether a server drains.
#[derive(Clone, Copy)]
pub(crate) enum Drain {
    /// It awaits no signal.
    Never,
    /// The signal was not given yet.
    Awaited,
    /// It takes no new request.
    Begun,
}

impl Drain {
    /// What a server begins with, if it awaits a signal or not.
    pub(crate) fn of(drains: bool) -> Drain
        ensures { result ≡ drain_of drains }
    {
        if drains { Drain::Awaited } else { Drain::Never }
    }

    /// Whether the server drains.
    pub(crate) fn is_draining(self) -> bool
        ensures { result ≡ is_draining self }
    {
        match self {
            Drain::Never => false,
            Drain::Awaited => false,
            Drain::Begun => true,
        }
    }
}
