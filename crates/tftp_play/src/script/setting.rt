//! The settings of a script: which there are, and what each changes of the configuration.

ghost use Rattle.std.specs.Prelude.{◌≡◌, IfOk};
ghost use Rattle.tftp_play.specs.Setting.{IsSet, setting_word};

use crate::script::flaw::{Flaw, Word};
use crate::script::line::LineFault;
use crate::script::word::{number, yes};
use tftp_negotiate::Limits;
use tftp_server::Config;

/// A setting, by its name.
#[derive(Clone, Copy)]
pub(crate) enum Setting {
    /// How often a last datagram is sent again.
    Retries,
    /// The largest block size.
    MaxBlock,
    /// The largest file.
    MaxFile,
    /// How many transfers there are at once.
    Cap,
    /// Whether a write replaces a file.
    Overwrite,
}

impl Setting {
    /// The setting that the word names.
    pub(crate) fn of_word(word: &Word<'_>) -> Result<Setting, LineFault>
        ensures { IfOk result (λ setting. word.now.bytes.now ≡ setting_word setting) }
    {
        match word.text()? {
            "retries" => Ok(Setting::Retries),
            "max-block" => Ok(Setting::MaxBlock),
            "max-file" => Ok(Setting::MaxFile),
            "cap" => Ok(Setting::Cap),
            "overwrite" => Ok(Setting::Overwrite),
            _ => Err(word.fault(Flaw::Setting)),
        }
    }

    /// The configuration with this value of the setting. Its range is not tested.
    pub(crate) fn set(self, config: Config, value: &Word<'_>) -> Result<Config, LineFault>
        ensures { IfOk result (λ new. IsSet self value.now.bytes.now config new) }
    {
        match self {
            Setting::Retries => Ok(Config {
                retries: number(value)?,
                ..config
            }),
            Setting::MaxBlock => Ok(Config {
                limits: Limits {
                    max_block: number(value)?,
                    ..config.limits
                },
                ..config
            }),
            Setting::MaxFile => Ok(Config {
                limits: Limits {
                    max_file: number(value)?,
                    ..config.limits
                },
                ..config
            }),
            Setting::Cap => Ok(Config {
                cap: number(value)?,
                ..config
            }),
            Setting::Overwrite => Ok(Config {
                overwrite: yes(value)?,
                ..config
            }),
        }
    }
}
