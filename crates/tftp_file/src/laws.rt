//! Laws of the definitions: text that is cut anywhere, blocks, prefixes and names.

ghost use Rattle.std.specs.Prelude.{◌≡◌, ◌+◌, ◌*◌, ◌<◌, ◌≤◌, ◌↔◌, ◌⊎◌, ◌++◌, ℕ, List, [], Ok};
ghost use Rattle.std.specs.Prelude.{length};
ghost use Rattle.std.specs.List.{concat};
ghost use Rattle.tftp_wire.specs.declared.mode.Mode.{Mode};
ghost use Rattle.tftp_file.specs.declared.netascii.NetFault.{NetFault};
ghost use Rattle.tftp_file.specs.Netascii.{wire_text};
ghost use Rattle.tftp_file.specs.Block.{block, block_count, first_blocks, IsPrefixOf};
ghost use Rattle.tftp_file.specs.Path.{IsPath, path_of_name, without_slash};
ghost use Rattle.tftp_file.specs.Decoding.{IsHeldBack, DecodesPiece, BeginsWireText, FirstWrong};
ghost use Rattle.tftp_file.specs.Decoding.{TakesAll, RefusesAt};

/// Netascii is decoded in the same way wherever it is cut (RFC 764).
///
/// The pieces of any cut join to the whole. A text that begins no wire text is refused at the piece
/// with its first wrong byte, with the same fault in every cut. The pieces before it are decoded.
pub fn any_cut()
    ensures joined { (held : List ℕ) (pieces : List (List ℕ)) (bytes after : List ℕ)
        → IsHeldBack held
        → (TakesAll held pieces bytes after ↔ DecodesPiece held (concat pieces) bytes after) }
    ensures refused { (held : List ℕ) (pieces : List (List ℕ)) (at : ℕ) (fault : NetFault)
        → IsHeldBack held → FirstWrong (held ++ concat pieces) at fault
        → RefusesAt held pieces at fault }
{}

/// A text begins a wire text or has a first wrong byte, never both. Each prefix of a text that
/// begins a wire text begins one, too. A text decodes to one list of bytes, and its first wrong
/// byte has one offset and one fault (RFC 764).
pub fn one_reading()
    ensures either { (text : List ℕ) → BeginsWireText text
        ⊎ ((at : ℕ) × (fault : NetFault) × FirstWrong text at fault) }
    ensures apart { (text : List ℕ) (at : ℕ) (fault : NetFault) → BeginsWireText text
        → FirstWrong text at fault → ⊥ }
    ensures front { (text rest : List ℕ) → BeginsWireText (text ++ rest) → BeginsWireText text }
    ensures decoded_once { (held piece bytes after others left : List ℕ)
        → DecodesPiece held piece bytes after → DecodesPiece held piece others left
        → (bytes ≡ others) × (after ≡ left) }
    ensures wrong_once { (text : List ℕ) (at other : ℕ) (fault wrong : NetFault)
        → FirstWrong text at fault → FirstWrong text other wrong
        → (at ≡ other) × (fault ≡ wrong) }
{}

/// The blocks of a text join to the text. Each but the last has the block size, the last is
/// shorter, and a text of a multiple of the size ends with an empty block (RFC 1350, section 6).
pub fn blocks()
    ensures joined { (text : List ℕ) (size : ℕ) → 0 < size
        → first_blocks text size (block_count text size) ≡ text }
    ensures full { (text : List ℕ) (size n : ℕ) → 0 < size → 1 ≤ n → n < block_count text size
        → length (block text size n) ≡ size }
    ensures last { (text : List ℕ) (size : ℕ) → 0 < size
        → length (block text size (block_count text size)) < size }
    ensures empty { (text : List ℕ) (size n : ℕ) → 0 < size → length text ≡ n * size
        → block text size (block_count text size) ≡ [] }
{}

/// Host bytes begin others exactly if their wire texts do, in each mode.
pub fn prefixes()
    ensures { (mode : Mode) (xs ys : List ℕ)
        → IsPrefixOf xs ys ↔ IsPrefixOf (wire_text mode xs) (wire_text mode ys) }
{}

/// A name spells a path exactly if the name without its leading slash, if any, is that path. This
/// is our own rule: RFC 1350 leaves the names of files open.
pub fn names()
    ensures { (name path : List ℕ)
        → ((path_of_name name ≡ Ok path) ↔ (IsPath path × (without_slash name ≡ path))) }
{}
