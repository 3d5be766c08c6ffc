// Records in plain lines: every field by its name, and of an unsound record which part of soundness fails first. The key fields are
// never shown, only whether they are zero. docs/MANUAL.md has the lines.
#![tactic(auto)]

mod fields;
mod parts;
mod slot;
mod unit;

ghost use Rattle.std.specs.Prelude.{Some};
ghost use Rattle.text.specs.Lists.{line_of};
ghost use Rattle.show.specs.Texts.{unit_part_text, slot_part_line, slot_parts};

use arrayvec::ArrayString;
use model::{KeyVersion, SlotNo, UnitNo};
pub use parts::{slot_part, unit_part};
pub use slot::put_slot;
use std::fmt;
use std::fmt::Write;
pub use unit::put_unit;

// The part of a unit's record.
#[derive(Clone, Copy)]
pub enum UnitPart {
    Check,
    Layout,
    Place,
    Method,
    Step,
    NextPair,
    Key(KeyVersion),
    Unnamed,
    Keeper,
}

impl fmt::Display for UnitPart {
    ghost output = { λ p. Some (unit_part_text p) };

    #[tactic(auto, unfolding(text::specs::Lists::line_of, text::specs::Scan::index_of, crate::specs::Texts::unit_parts))]
    fn fmt<W: Write>(&self, f: &mut fmt::Formatter<W>) -> fmt::Result {
        f.write_str(match self {
            UnitPart::Check => "check",
            UnitPart::Layout => "layout",
            UnitPart::Place => "place",
            UnitPart::Method => "method",
            UnitPart::Step => "step",
            UnitPart::NextPair => "next pair",
            UnitPart::Key(version) => return write!(f, "key {}", version.number()),
            UnitPart::Unnamed => "unnamed bytes",
            UnitPart::Keeper => "keeper",
        })
    }
}

// The part of a slot's record.
#[derive(Clone, Copy, Debug, PartialEq, Eq)]
pub enum SlotPart {
    Check,
    State,
    Unit,
    TokenLength,
    Command,
    PastCommand,
    PastToken,
    Unnamed,
}

impl fmt::Display for SlotPart {
    ghost output = { λ p. Some (line_of (slot_part_line p) slot_parts) };

    #[tactic(auto, unfolding(text::specs::Lists::line_of, text::specs::Scan::index_of, crate::specs::Texts::slot_parts))]
    fn fmt<W: Write>(&self, f: &mut fmt::Formatter<W>) -> fmt::Result {
        f.write_str(match self {
            SlotPart::Check => "check",
            SlotPart::State => "state",
            SlotPart::Unit => "unit",
            SlotPart::TokenLength => "token length",
            SlotPart::Command => "command",
            SlotPart::PastCommand => "bytes past the command",
            SlotPart::PastToken => "bytes past the token",
            SlotPart::Unnamed => "unnamed bytes",
        })
    }
}

// Every record of the two tables, parted by newlines: units 0 to 7, then slots 0 to 15.
pub fn put_all<const N: usize>(
    out: &mut ArrayString<N>,
    units: &[u8],
    slots: &[u8],
) -> fmt::Result {
    for i in 0..8 {
        if 0 < i {
            out.write_str("\n")?;
        }
        put_unit(out, units, UnitNo(i))?;
    }
    for i in 0..16 {
        out.write_str("\n")?;
        put_slot(out, slots, SlotNo(i))?;
    }
    Ok(())
}
