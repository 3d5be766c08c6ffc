// A slot's record in plain lines.
use super::fields::{Command, Page};
use super::parts::slot_part;
use arrayvec::ArrayString;
use model::{Slot, SlotNo};
use slots::SlotState;
use std::fmt;
use std::fmt::Write;

// What a command of n bytes is, by its code.
fn form(code: u8, n: usize) -> &'static str {
    if !model::legal_len(code, n) {
        "of no legal length"
    } else if n == model::cdb_len(code) as usize {
        "bare"
    } else {
        "wrapped"
    }
}

// The command by its name, that of SECURITY PROTOCOL OUT with its page, its length, and what it is by that.
fn put_command<const N: usize>(out: &mut ArrayString<N>, rec: &[u8]) -> fmt::Result {
    let code = wire::at(rec, slots::COMMAND);
    let n = wire::number::<2>(rec, slots::COMMAND_LENGTH);
    write!(out, "\n  command: {}", Command(code))?;
    if code == model::PROTOCOL_OUT {
        write!(
            out,
            "{}",
            Page(wire::number::<2>(rec, slots::COMMAND + 2) as u16)
        )?;
    }
    write!(out, ", {n} bytes, {}", form(code, n as usize))
}

fn put_fields<const N: usize>(out: &mut ArrayString<N>, rec: &[u8]) -> fmt::Result {
    write!(out, "\n  state: {}", wire::number::<2>(rec, slots::STATE))?;
    write!(out, "\n  unit: {}", wire::number::<2>(rec, slots::UNIT))?;
    put_command(out, rec)?;
    write!(
        out,
        "\n  token: {} bytes",
        wire::number::<2>(rec, slots::TOKEN_LENGTH)
    )
}

// The record of a slot in the slot table, in plain lines: one where it is free, else what it is and then its fields, as they stand. Of a
// slot above 15, or of a table of another length, nothing. Not one function with a unit's: tables, states and fields are two.
pub fn put_slot<const N: usize>(
    out: &mut ArrayString<N>,
    slots: &[u8],
    slot: SlotNo,
) -> fmt::Result {
    let (Some(slots), Some(slot)) = (slots.as_array(), Slot::new(slot)) else {
        return Ok(());
    };
    let rec = slots::record_of(slots, slot);
    write!(out, "slot {}", slot.no().0)?;
    match (slots::slot_state(rec), slot_part(slots, slot)) {
        (SlotState::Free, _) => return out.write_str(": free"),
        (_, Some(part)) => write!(out, ": unsound: {part}")?,
        (_, None) => out.write_str(": open")?,
    }
    put_fields(out, rec)
}
