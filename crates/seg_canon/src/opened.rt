//! A part opened: its values or parts, as far as they are known without reading a line.

ghost use Rattle.std.specs.Prelude.{◌≡◌, ◌-◌, ◌≤◌};
ghost use Rattle.hic_word.specs.Width.{IsWidth};
ghost use Rattle.hic_word.specs.Values.{Array};
ghost use Rattle.hic_word.specs.Stands.{Lookup};
ghost use Rattle.seg_canon.specs.Parts.{PartFor};
ghost use Rattle.seg_canon.specs.Opens.{OpenedFor};

use crate::entry::shorter;
use crate::packed::unpack;
use crate::parts::Part;
use hic_word::entry::{id_of, length_of, path_of};
use hic_word::{Kind, LineId, Word};

/// What a part is.
#[derive(Clone, Copy, Debug)]
pub enum Opened<const W: usize> {
    /// The part is empty.
    Zero,
    /// The part has height 1 and is packed; its words.
    Words([Word; W]),
    /// Only the part of this number, below the width, is not empty; that part.
    One(u8, Part),
    /// The part's entry names this line with an empty path: the line must be read.
    Stored(LineId),
}

/// What a part is, without a line being read.
pub fn open_part<const W: usize>(part: Part) -> Opened<W>
    requires wide { IsWidth W }
    requires some { 1 ≤ part.top }
    ensures { (m : Lookup) (A : Array) → PartFor W m part A → OpenedFor W m part result A }
{
    match part.entry.kind {
        Kind::Node => open_node(part),
        Kind::Pack => {
            if part.top == 1 {
                Opened::Words(unpack(part.entry))
            } else {
                Opened::One(0, lowered(part))
            }
        }
        _ => Opened::Zero,
    }
}

/// The first part of a part whose other parts are empty.
fn lowered(part: Part) -> Part
    requires { 1 ≤ part.top }
    ensures { result ≡ record part { top = part.top - 1 } }
{
    Part {
        top: part.top - 1,
        at: part.at,
        entry: part.entry,
    }
}

/// The same, of a part whose entry names a line.
fn open_node<const W: usize>(part: Part) -> Opened<W>
    requires wide { IsWidth W }
    requires some { 1 ≤ part.top }
    ensures { (m : Lookup) (A : Array) → part.entry.kind ≡ Kind.Node → PartFor W m part A
        → OpenedFor W m part result A }
{
    if part.at < part.top {
        return Opened::One(0, lowered(part));
    }
    if length_of(part.entry) == 0 {
        return Opened::Stored(LineId::make(id_of(part.entry) as u32));
    }
    let top = part.top - 1;
    let entry = shorter::<W>(part.entry);
    Opened::One(
        (path_of(part.entry) % W as u64) as u8,
        Part {
            top,
            at: top,
            entry,
        },
    )
}
