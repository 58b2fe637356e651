//! What `tftp-show` is asked for.

ghost use Rattle.std.specs.Prelude.{◌≡◌, None, false};
ghost use Rattle.tftp_show.specs.declared.task.Style.TheVariants.{Report};

/// What is printed.
#[derive(Clone, Copy, PartialEq, Eq)]
pub enum Style {
    /// The line of each packet.
    Packets,
    /// Each transfer, when it is over.
    Report,
    /// A line as a transfer begins, and one as it ends.
    Follow,
    /// Each transfer as an object of JSON.
    Json,
}

/// What is asked for.
#[derive(Clone, Copy)]
pub struct Task {
    /// What is printed.
    pub style: Style,
    /// The number of the transfer that alone is printed.
    pub only: Option<u64>,
    /// The number of the transfer that is drawn.
    pub drawn: Option<u64>,
    /// The port of requests in a capture.
    pub port: u16,
    /// Whether a transfer that ended is printed as soon as no more input is at hand.
    pub is_live: bool,
}

impl Task {
    /// The report of all transfers of an input that is there.
    pub fn report() -> Task
        ensures style { result.style ≡ Report }
        ensures all { (result.only ≡ None) × (result.drawn ≡ None) }
        ensures port { result.port ≡ 69 }
        ensures at_end { result.is_live ≡ false }
    {
        Task {
            style: Style::Report,
            only: None,
            drawn: None,
            port: 69,
            is_live: false,
        }
    }

    /// Whether the transfer of this number is printed.
    pub(crate) fn wants(&self, number: u64) -> bool {
        match self.only {
            Some(only) => only == number,
            None => true,
        }
    }

    /// Whether what belongs to no transfer is printed.
    pub(crate) fn wants_others(&self) -> bool {
        self.only.is_none() && matches!(self.style, Style::Report | Style::Follow)
    }
}
