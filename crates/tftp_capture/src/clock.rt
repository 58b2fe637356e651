//! The clock of an interface: how many ticks it has in a second.

/// The microseconds of a second.
const SECOND: u64 = 1_000_000;

/// The most ticks of a second whose product with a million fits.
const MOST: u64 = 1 << 43;

/// A clock, by its ticks in a second.
#[derive(Clone, Copy)]
pub(crate) struct Clock(u64);

impl Clock {
    pub(crate) const MICROS: Clock = Clock(SECOND);

    pub(crate) const NANOS: Clock = Clock(1_000_000_000);

    /// The clock of an interface's option `if_tsresol`: a power of ten, or of two if the highest
    /// bit is set. Another than one of at least a tick a second is taken for the default.
    pub(crate) fn of_resolution(option: u8) -> Clock {
        let power = u32::from(option % 128);
        let ticks = if option < 128 {
            10u64.checked_pow(power)
        } else {
            2u64.checked_pow(power)
        };
        Clock(ticks.unwrap_or(SECOND))
    }

    /// The microseconds of ticks. What is past all is the last.
    pub(crate) fn micros(self, ticks: u64) -> u64 {
        let seconds = ticks.checked_div(self.0).unwrap_or(0);
        let rest = ticks.checked_rem(self.0).unwrap_or(0);
        seconds
            .saturating_mul(SECOND)
            .saturating_add(self.fraction(rest))
    }

    /// The microseconds of less than a second.
    fn fraction(self, ticks: u64) -> u64 {
        let micros = if self.0 <= MOST {
            ticks.saturating_mul(SECOND).checked_div(self.0)
        } else {
            ticks.checked_div(self.0 / SECOND)
        };
        micros.unwrap_or(0)
    }
}
