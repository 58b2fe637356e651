//! What single options of the matched words say.

ghost use Rattle.std.specs.Prelude.{◌≡◌, ◌*◌, ◌^◌, ◌-◌, codes, length, map, min};
ghost use Rattle.clap.specs.Matches.{found_of};
ghost use Rattle.tftp_arguments.specs.Read.{value_text};
ghost use Rattle.tftp_daemon.specs.CommandLine.{is_on, words_of};
ghost use Rattle.tftp_daemon.specs.Refused.{is_from_words, is_given, source_of};

use crate::options::LISTEN;
use clap::ArgMatches;
use clap::parser::ValueSource;

/// Whether a flag is set.
pub(crate) fn is_on(matches: &ArgMatches<'_>, name: &str) -> bool
    ensures { result ≡ is_on (value_text matches.now name.now) }
{
    matches.get_one::<bool>(name).unwrap_or(false)
}

/// Whether an option is among the words, and has not its default.
pub(crate) fn is_given(matches: &ArgMatches<'_>, name: &str) -> bool
    ensures { result ≡ is_given (source_of (found_of matches.now) name.now) }
{
    match matches.value_source(name) {
        Some(source) => is_from_words(source),
        None => false,
    }
}

/// Whether a value is from the words, and no default.
fn is_from_words(source: ValueSource) -> bool
    ensures { result ≡ is_from_words source }
{
    match source {
        ValueSource::DefaultValue => false,
        ValueSource::CommandLine => true,
    }
}

/// The words of `--listen`.
pub(crate) fn listen_words<'m, 'a>(matches: &'m ArgMatches<'a>) -> &'m [&'a str]
    ensures { map (λ word. word.now) result.now
        ≡ words_of (found_of matches.now) (codes "listen") }
{
    matches.get_strs(LISTEN).unwrap_or_default()
}

/// The number of servers that are to start, so many at each address; as a `usize` allows.
pub(crate) fn server_count(matches: &ArgMatches<'_>, each: u8) -> usize
    ensures { result
        ≡ min (each * length (words_of (found_of matches.now) (codes "listen"))) (2 ^ 64 - 1) }
{
    usize::from(each).saturating_mul(listen_words(matches).len())
}
