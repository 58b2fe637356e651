//! The words of the command line of one of several servers.

use crate::daemon::DaemonConfig;
use crate::server_config::part_of;
use std::alloc::{AllocError, Global};
use tftp_ends::Backoff;

/// The words for a server of the configuration.
pub(crate) fn words_of(
    alloc: Global,
    config: &DaemonConfig<'_>,
    server: u8,
) -> Result<Vec<String>, AllocError> {
    let mut words = Vec::new(alloc);
    match add_words(alloc, &mut words, config, server) {
        Ok(()) => Ok(words),
        Err(error) => Err(error),
    }
}

/// Adds all words. Behind `--` stands the folder, whatever its name begins with.
fn add_words(
    alloc: Global,
    words: &mut Vec<String>,
    config: &DaemonConfig<'_>,
    server: u8,
) -> Result<(), AllocError> {
    add_word(words, String::from_str(alloc, "tftpd"))?;
    add_word(words, String::from_str(alloc, "--listen=stdin"))?;
    add_ports(alloc, words, config, server)?;
    add_numbers(alloc, words, config, server)?;
    add_paths(alloc, words, config)?;
    add_flags(alloc, words, config)?;
    add_word(words, String::from_str(alloc, "--"))?;
    add_word(words, String::from_str(alloc, config.root))
}

/// Adds a word, if there was memory for it.
fn add_word(words: &mut Vec<String>, word: Result<String, AllocError>) -> Result<(), AllocError> {
    match words.push(word?) {
        Ok(()) => Ok(()),
        Err(error) => Err(AllocError::from(error)),
    }
}

/// Adds the server's part of the ports.
fn add_ports(
    alloc: Global,
    words: &mut Vec<String>,
    config: &DaemonConfig<'_>,
    server: u8,
) -> Result<(), AllocError> {
    let Some(range) = config.ports else {
        return Ok(());
    };
    match part_of(range, config.servers().unwrap_or(0), server) {
        Some(part) => {
            let (first, last) = (part.first, part.last);
            add_word(words, format!(in alloc; "--ports={first}:{last}"))
        }
        None => Ok(()),
    }
}

/// Adds the options with a number.
fn add_numbers(
    alloc: Global,
    words: &mut Vec<String>,
    config: &DaemonConfig<'_>,
    server: u8,
) -> Result<(), AllocError> {
    let limits = config.config.limits;
    let numbers = [
        ("server", Some(u64::from(server))),
        ("max-block", Some(u64::from(limits.max_block))),
        ("max-file", Some(limits.max_file)),
        ("retries", Some(u64::from(config.config.retries))),
        ("cap", Some(u64::from(config.config.cap))),
        ("per-client", config.per_client.map(u64::from)),
        ("longest", config.longest.map(u64::from)),
        ("length-memory", Some(config.length_memory)),
    ];
    for (option, number) in &numbers {
        if let Some(number) = number {
            add_word(words, format!(in alloc; "--{option}={number}"))?;
        }
    }
    Ok(())
}

/// Adds the options with a path.
fn add_paths(
    alloc: Global,
    words: &mut Vec<String>,
    config: &DaemonConfig<'_>,
) -> Result<(), AllocError> {
    let paths = [
        ("uploads", config.uploads),
        ("drain", config.drain),
        ("status", config.status),
    ];
    for (option, path) in &paths {
        if let Some(path) = path {
            add_word(words, format!(in alloc; "--{option}={path}"))?;
        }
    }
    Ok(())
}

/// Adds the options without a value.
fn add_flags(
    alloc: Global,
    words: &mut Vec<String>,
    config: &DaemonConfig<'_>,
) -> Result<(), AllocError> {
    let flags = [
        ("--requests-only", config.requests_only),
        ("--backoff", config.backoff == Backoff::Doubling),
        ("--overwrite", config.config.overwrite),
        ("--read-only", config.read_only),
        ("--forever", true),
        ("--log", config.logs),
        ("--log-time", config.log_times),
    ];
    for (flag, is_on) in &flags {
        if *is_on {
            add_word(words, String::from_str(alloc, flag))?;
        }
    }
    Ok(())
}
