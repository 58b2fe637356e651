//! A datagram as one line of text: its packet, or its first fault.

ghost use Rattle.std.specs.Prelude.{◌≡◌, ◌++◌, IfErr, IfOk, OnOk, is_none};
ghost use Rattle.std.specs.String.{string_bytes};
ghost use Rattle.tftp_wire.specs.Datagram.{datagram_shown, fault_line};
ghost use Rattle.tftp_wire.specs.Faults.{out_of_memory};
ghost use Rattle.tftp_wire.specs.Reading.{first_fault};

use crate::fault::{PacketFault, PacketFaultKind};
use crate::laws;
use crate::line::{put_number, put_str, show_ref};
use crate::reader::decode_ref;

/// The maximum length of the line of a fault, in bytes.
const FAULT_LINE: usize = 40;

/// Appends the line of a datagram, without a line end: the packet's line as [`show_ref`] writes it,
/// or `fault KIND AT`. Returns whether the datagram is a packet.
///
/// It fails only when out of memory, and the content of `out` is then unchanged.
pub fn show_datagram(bytes: &[u8], out: &mut String) -> Result<bool, PacketFault>
    ensures is_packet { IfOk result (λ is_packet. is_packet ≡ is_none (first_fault bytes.now)) }
    ensures appended { OnOk result (string_bytes out.new
        ≡ string_bytes out.old ++ datagram_shown bytes.now (first_fault bytes.now)) }
    ensures err { IfErr result (λ e.
        (e ≡ out_of_memory) × (string_bytes out.new ≡ string_bytes out.old)) }
{
    match decode_ref(bytes) {
        Ok(packet) => {
            // Bytes that spell a packet have no fault, and `packet_in` computes that packet.
            laws::fault_or_packet();
            laws::spelled_is_found();
            match show_ref(&packet, out) {
                Ok(()) => Ok(true),
                Err(fault) => Err(fault),
            }
        }
        Err(fault) => match show_fault(fault.kind, fault.at, out) {
            Ok(()) => Ok(false),
            Err(fault) => Err(fault),
        },
    }
}

fn show_fault(kind: PacketFaultKind, at: usize, out: &mut String) -> Result<(), PacketFault>
    ensures ok { OnOk result (string_bytes out.new ≡ string_bytes out.old ++ fault_line kind at) }
    ensures err { IfErr result (λ e.
        (e ≡ out_of_memory) × (string_bytes out.new ≡ string_bytes out.old)) }
{
    out.reserve(FAULT_LINE)?;
    put_str(out, "fault ");
    put_str(out, kind.name());
    put_str(out, " ");
    put_number(out, at);
    Ok(())
}
