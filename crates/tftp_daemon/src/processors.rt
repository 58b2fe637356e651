//! How many processors a process may run on.

ghost use Rattle.std.specs.Prelude.{◌≡◌, ◌≤◌, option_map};
ghost use Rattle.tftp_daemon.specs.Processors.{allowed_in, in_list, in_mask, in_range, mask_behind};
ghost use Rattle.tftp_daemon.specs.Processors.{mask_of, number_in, ones_of, processors_in, size_of};

use std::fs;
use std::rt::Runtime;

/// What is before the mask of processors in its line of `/proc/self/status`.
const ALLOWED: &str = "Cpus_allowed:";

/// The processors that this process may run on: those of its mask, if all of them are online, else at
/// most as many as are online. It is 1 if the system does not say, and 255 at most.
pub(crate) fn processors<R: Runtime + AllocGlobal>(rt: &R) -> u8
    ensures { 1 ≤ result }
{
    let status = fs::read_to_string(rt, "/proc/self/status").ok();
    let online = fs::read_to_string(rt, "/sys/devices/system/cpu/online").ok();
    processors_in(status.as_deref(), online.as_deref())
}

/// The processors by these texts of the system, as far as it gave them.
fn processors_in(status: Option<&str>, online: Option<&str>) -> u8
    ensures number { result ≡ processors_in (option_map (λ text. text.now) status.entry)
        (option_map (λ text. text.now) online.entry) }
    ensures least { 1 ≤ result }
{
    let allowed = allowed_in(status);
    match online {
        Some(online) => allowed.min(in_list(online)).max(1),
        None => allowed.max(1),
    }
}

/// The processors of the mask in this text, or 1 without a text.
fn allowed_in(status: Option<&str>) -> u8
    ensures { result ≡ allowed_in (option_map (λ text. text.now) status.entry) }
{
    match status {
        Some(status) => in_mask(mask_of(status)),
        None => 1,
    }
}

/// The mask of processors in the text of `/proc/self/status` (proc(5)), such as `ff,ffffffff`.
fn mask_of(status: &str) -> &str
    ensures { result.now ≡ mask_of status.now }
{
    for line in status.lines() {
        if let Some(mask) = mask_behind(line) {
            return mask;
        }
    }
    ""
}

/// The mask in a line that has one.
fn mask_behind(line: &str) -> Option<&str>
    ensures { option_map (λ mask. mask.now) result ≡ mask_behind line.now }
{
    line.strip_prefix(ALLOWED)
}

/// The number of processors in a mask of hexadecimal digits.
fn in_mask(mask: &str) -> u8
    ensures { result ≡ in_mask mask.now }
{
    let mut count: u8 = 0;
    for byte in mask.as_bytes() {
        count = count.saturating_add(ones_of(*byte));
    }
    count
}

/// The ones of a hexadecimal digit; another byte has none.
fn ones_of(byte: u8) -> u8
    ensures { result ≡ ones_of byte }
{
    match char::from(byte).to_digit(16) {
        Some(digit) => digit.count_ones() as u8,
        None => 0,
    }
}

/// The number of processors in a list such as `0-3,8` (sysfs-devices-system-cpu).
fn in_list(list: &str) -> u8
    ensures { result ≡ in_list list.now }
{
    let mut count: u8 = 0;
    for range in list.trim().split(',') {
        count = count.saturating_add(in_range(range));
    }
    count
}

/// The number of processors in a range such as `0-3`, or `8` alone.
fn in_range(range: &str) -> u8
    ensures { result ≡ in_range range.now }
{
    match range.split_once('-') {
        Some((first, last)) => size_of(number_in(first), number_in(last)),
        None => size_of(number_in(range), number_in(range)),
    }
}

/// The number that a text is, if it is one below 65536.
fn number_in(text: &str) -> Option<u16>
    ensures { result ≡ number_in text.now }
{
    text.parse::<u16>().ok()
}

/// How many there are from the first to the last, if there are both; 255 at most.
fn size_of(first: Option<u16>, last: Option<u16>) -> u8
    ensures { result ≡ size_of first last }
{
    let Some(first) = first else {
        return 0;
    };
    let Some(last) = last else {
        return 0;
    };
    if last < first {
        return 0;
    }
    match u8::try_from(last - first) {
        Ok(others) => others.saturating_add(1),
        Err(_) => u8::MAX,
    }
}
