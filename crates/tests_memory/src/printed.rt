//! How the scenes print calls, results and bytes.

use anyhow::Result;
use std::alloc::AllocError;

/// Announces the next call. Allocations count from the colon at the end.
pub(crate) fn announce(rt: &HostRuntime, call: &str) -> Result<()> {
    let line = format!(in rt.alloc(); "{call}:\n")?;
    rt.print(line.as_str())?;
    Ok(())
}

/// Reports that the call has returned, which ends the counting. It allocates no memory.
pub(crate) fn has_returned(rt: &HostRuntime) -> Result<()> {
    rt.print("= ")?;
    Ok(())
}

/// Reports that a call was out of memory, and whether the state is unchanged.
pub(crate) fn was_refused(rt: &HostRuntime, before: &str, after: &str) -> Result<()> {
    if before == after {
        println!(rt; "out of memory, all as before")?;
    } else {
        println!(rt; "out of memory, from {before} to {after}")?;
    }
    Ok(())
}

/// Appends bytes as hexadecimal digits, more than eight equal bytes in a row as `[61*512]`, and no
/// bytes as a dash.
pub(crate) fn append_bytes(text: &mut String, bytes: &[u8]) -> Result<(), AllocError> {
    if bytes.is_empty() {
        return text.push('-');
    }
    let mut last = 0;
    let mut count = 0usize;
    for &byte in bytes {
        if byte != last {
            append_run(text, last, count)?;
            count = 0;
        }
        last = byte;
        count = count.saturating_add(1);
    }
    append_run(text, last, count)
}

/// Appends a byte `count` times.
fn append_run(text: &mut String, byte: u8, count: usize) -> Result<(), AllocError> {
    if count > 8 {
        return write!(text, "[{byte:02x}*{count}]");
    }
    for _ in 0..count {
        write!(text, "{byte:02x}")?;
    }
    Ok(())
}
