//! Laws of the definitions of packets and their bytes, independent of the code.

ghost use Rattle.tftp_wire.specs.Laws.{OneMeaning, FaultWhereNothing, SpelledHasNoFault};
ghost use Rattle.tftp_wire.specs.Laws.{SpelledIsFound, CanonicalSpells, OptionsFollow};

/// Bytes spell at most one packet.
pub fn one_meaning()
    ensures { OneMeaning }
{}

/// Bytes have a first fault exactly if they spell no packet.
pub fn fault_or_packet()
    ensures nothing { FaultWhereNothing }
    ensures spelled { SpelledHasNoFault }
{}

/// `packet_in` computes the packet that bytes spell.
pub fn spelled_is_found()
    ensures { SpelledIsFound }
{}

/// The canonical bytes of a valid packet spell it: an encoded packet decodes to itself.
pub fn canonical_spells()
    ensures { CanonicalSpells }
{}

/// A request or an OACK is the packet without options, followed by its options in order.
pub fn options_follow()
    ensures { OptionsFollow }
{}
