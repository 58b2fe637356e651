//! The configuration of a server.

ghost use Rattle.std.specs.Prelude.{◌↔◌, IsTrue};
ghost use Rattle.tftp_server.specs.Config.{IsConfig};

use tftp_file::MAX_WIRE;
use tftp_negotiate::{Limits, is_block_size};

/// The upper limit of [`Config::retries`].
const MAX_RETRIES: u8 = 10;

/// The upper limit of [`Config::cap`].
const MAX_CAP: u8 = 64;

/// The limits of a server and of each of its transfers.
#[derive(Clone, Copy, Debug, PartialEq, Eq)]
pub struct Config {
    /// The largest block size that it agrees to and the largest `tsize` of a write that it accepts,
    /// both in bytes.
    pub limits: Limits,
    /// How often an end retransmits its last datagram without progress, 0 to 10.
    pub retries: u8,
    /// How many transfers it holds at once, 1 to 64. A closed one counts until it is taken.
    pub cap: u8,
    /// Whether a write replaces an existing file.
    pub overwrite: bool,
}

impl Config {
    /// Whether each number is in its range.
    pub fn is_valid(&self) -> bool
        ensures { IsTrue result ↔ IsConfig self.now }
    {
        is_block_size(u64::from(self.limits.max_block))
            && self.retries <= MAX_RETRIES
            && 1 <= self.cap
            && self.cap <= MAX_CAP
    }
}

impl Default for Config {
    ghost use Rattle.std.specs.Prelude.{◌≡◌};
    ghost use Rattle.tftp_server.specs.Config.{default_config};

    ghost is_default = { λ c. c ≡ default_config };

    /// Blocks of at most 1,428 bytes, files of any length that blocks can carry, 5 retries and 16
    /// transfers; no file is replaced.
    fn default() -> Config {
        Config {
            limits: Limits {
                max_block: 1_428,
                max_file: MAX_WIRE,
            },
            retries: 5,
            cap: 16,
            overwrite: false,
        }
    }
}
