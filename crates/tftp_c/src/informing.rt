//! What an end reports of its agreement with its peer.

ghost use Rattle.std.specs.Prelude.{◌≡◌};
ghost use Rattle.tftp_c.specs.Elsewhere.{stated_in_files};
ghost use Rattle.tftp_c.specs.Informed.{InfoFault, Informs, InformsOf};
ghost use Rattle.tftp_c.specs.Handled.{HoldsClient};

use crate::elsewhere::Absent;
use crate::event::{self, INFO_SIZE, TftpInfo};
use crate::handle::TftpEnd;
use tftp_ends::Record;
use tftp_file::Files;

/// What an end with this record has agreed: the stated length, the timeout and the block size.
pub(crate) fn agreed(state: &Record, stated: Option<u64>) -> TftpInfo
    ensures { InformsOf state.now stated result }
{
    let timeout = state.timeout.unwrap_or(0);
    match stated {
        Some(length) => TftpInfo {
            size: INFO_SIZE,
            length,
            timeout,
            has_length: true,
            block_size: state.size,
            reserved: [0; 4],
        },
        None => TftpInfo {
            size: INFO_SIZE,
            length: 0,
            timeout,
            has_length: false,
            block_size: state.size,
            reserved: [0; 4],
        },
    }
}

/// The length of the file of a transfer, if one was stated.
pub(crate) fn stated_in(files: &Files<Absent, Absent>) -> Option<u64>
    ensures { result ≡ stated_in_files files.now }
{
    match files {
        Files::Source(file) => file.stated,
        Files::Sink(file) => file.stated,
    }
}

/// Reports what the end and its peer have agreed. After a fault `info` is unchanged.
#[unsafe(no_mangle)]
pub extern "C" fn tftp_end_info(end: &mut TftpEnd, info: &mut TftpInfo) -> u8
    ensures ok { result ≡ 0 → HoldsClient end.old.slot.value (λ c. Informs c info.new) }
    ensures fault { (result ≡ 0 → ⊥) → InfoFault end.old.slot.value info.old result }
    ensures same { end.new.slot.value ≡ end.old.slot.value }
    ensures unmoved { (result ≡ 0 → ⊥) → info.new ≡ info.old }
{
    let fault = info.size_fault();
    if fault != 0 {
        return fault;
    }
    if !end.is_open() {
        return event::NOT_OPEN;
    }
    let client = end.slot.client();
    *info = agreed(&client.end.record(), client.stated);
    0
}
