// A unit's record in plain lines.
use super::fields::{Keeper, Method, Versions, key_text, keys_not_zero};
use super::parts::unit_part;
use arrayvec::ArrayString;
use model::{Unit, UnitNo};
use seal::Record;
use std::fmt;
use std::fmt::Write;
use text::put_hex;
use units::UnitState;

// Layout to identifier.
fn put_front<const N: usize>(out: &mut ArrayString<N>, rec: &Record) -> fmt::Result {
    write!(out, "\n  layout: {}", wire::number::<2>(rec, units::LAYOUT))?;
    write!(
        out,
        "\n  unit number: {}",
        wire::number::<2>(rec, units::NUMBER)
    )?;
    write!(out, "\n  method: {}", Method(units::method_of(rec)))?;
    write!(out, "\n  valid versions:{}", Versions(units::mask_of(rec)))?;
    write!(out, "\n  policy access tag: {}", units::tag_of(rec))?;
    write!(out, "\n  step: {}\n  identifier: ", units::step_of(rec))?;
    put_hex(out, units::identifier_of(rec))
}

// The keys, of which only this is shown, and who keeps them.
fn put_keys<const N: usize>(out: &mut ArrayString<N>, rec: &Record) -> fmt::Result {
    write!(
        out,
        "\n  authentication master key: {}",
        key_text(rec, units::AUTH_KEY)
    )?;
    write!(
        out,
        "\n  generation master key: {}",
        key_text(rec, units::GEN_KEY)
    )?;
    write!(
        out,
        "\n  next authentication master key: {}",
        key_text(rec, units::NEXT_AUTH_KEY)
    )?;
    write!(
        out,
        "\n  next generation master key: {}",
        key_text(rec, units::NEXT_GEN_KEY)
    )?;
    write!(
        out,
        "\n  working keys that are not zero:{}",
        keys_not_zero(rec)
    )?;
    write!(out, "\n  keys: {}", Keeper(units::keeper_field_of(rec)))
}

fn put_fields<const N: usize>(out: &mut ArrayString<N>, rec: &Record) -> fmt::Result {
    put_front(out, rec)?;
    put_keys(out, rec)
}

// The record of a unit in the unit table, in plain lines: one where it is unused, else what it is and then its fields, as they stand. Of
// a unit above 7, or of a table of another length, nothing. Not one function with a slot's: tables, states and fields are two.
pub fn put_unit<const N: usize>(
    out: &mut ArrayString<N>,
    units: &[u8],
    unit: UnitNo,
) -> fmt::Result {
    let (Some(units), Some(unit)) = (units.as_array(), Unit::new(unit)) else {
        return Ok(());
    };
    let rec = units::record_of(units, unit);
    write!(out, "unit {}", unit.no().0)?;
    match (units::unit_state(units, unit), unit_part(units, unit)) {
        (UnitState::Unused, _) => return out.write_str(": unused"),
        (_, Some(part)) => write!(out, ": unsound: {part}")?,
        (_, None) => out.write_str(": used")?,
    }
    put_fields(out, rec)
}
