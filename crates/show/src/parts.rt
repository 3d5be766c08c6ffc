// Which part of soundness fails first in a record.
ghost use Rattle.std.specs.Prelude.{◌≡◌, ◌<◌, MatchOption};
ghost use Rattle.slots.specs.Slot.{slot_at};
ghost use Rattle.show.specs.Parts.{key_wrong, wrong_key, tail_part, record_part, unit_part, space_part, open_part, slot_part};

use super::{SlotPart, UnitPart};
use model::{KeyVersion, Slot, Unit};
use seal::Record;
use slots::{SlotState, SlotTable};
use units::{UnitState, UnitTable};

// ---- units

// Is the key of a version wrong: not valid, and not zero?
fn key_wrong(rec: &Record, version: KeyVersion) -> bool
    ensures { result ≡ key_wrong version rec.now }
{
    let place = units::WORKING_KEYS + 20 * (version.number() as usize);
    !units::has_bit(units::mask_of(rec), version) && !wire::are_zeros(rec, place, 20)
}

// The lowest version whose key is wrong, if one is.
fn wrong_key(rec: &Record) -> Option<KeyVersion>
    ensures { MatchOption result (wrong_key 16 0 rec.now ≡ 16) (λ v. (v ≡ wrong_key 16 0 rec.now) × (v < 16)) }
{
    for v in 0..16 {
        let version = KeyVersion::new(v).unwrap();
        if key_wrong(rec, version) {
            return Some(version);
        }
    }
    None
}

// The part, of a record whose check, layout, place, method and step are right.
#[tactic(auto, unfolding(crate::specs::Parts::tail_part, units::specs::Unit::next_pair_zero, units::specs::Unit::unnamed_zero))]
fn tail_part(rec: &Record) -> UnitPart
    ensures { result ≡ tail_part rec.now }
{
    let pending = units::step_of(rec) == 1;
    if !pending && !wire::are_zeros(rec, units::NEXT_AUTH_KEY, 40) {
        return UnitPart::NextPair;
    }
    match wrong_key(rec) {
        Some(version) => UnitPart::Key(version),
        None if wire::are_zeros(rec, units::UNNAMED, 58) => UnitPart::Keeper,
        None => UnitPart::Unnamed,
    }
}

// The part of a record at its place that is unsound.
#[tactic(auto, unfolding(crate::specs::Parts::record_part, units::specs::Unit::layout, units::specs::Unit::unit_number))]
fn record_part(rec: &Record, place: Unit) -> UnitPart
    ensures { result ≡ record_part place rec.now }
{
    if !seal::is_checked(rec) {
        UnitPart::Check
    } else if wire::number::<2>(rec, units::LAYOUT) != 1 {
        UnitPart::Layout
    } else if wire::number::<2>(rec, units::NUMBER) as u32 != place.no().0 {
        UnitPart::Place
    } else if 1 < units::method_of(rec) {
        UnitPart::Method
    } else if 1 < units::step_of(rec) {
        UnitPart::Step
    } else {
        tail_part(rec)
    }
}

// The first part of soundness that fails in a unit's record, in its table; none where the record is sound.
#[tactic(auto, unfolding(crate::specs::Parts::unit_part))]
pub fn unit_part(units: &UnitTable, unit: Unit) -> Option<UnitPart>
    ensures { result ≡ unit_part units.now unit }
{
    match units::unit_state(units, unit) {
        UnitState::Unsound => Some(record_part(units::record_of(units, unit), unit)),
        UnitState::Unused | UnitState::Used => None,
    }
}

// ---- slots

// The part among the zeros of a record: past the command, past the token, unnamed.
#[tactic(auto, unfolding(crate::specs::Parts::space_part, slots::specs::Slot::command_length, slots::specs::Slot::token_length))]
fn space_part(rec: &Record) -> SlotPart
    ensures { result ≡ space_part rec.now }
{
    let n = wire::number::<2>(rec, slots::COMMAND_LENGTH) as usize;
    let m = wire::number::<2>(rec, slots::TOKEN_LENGTH) as usize;
    if !slots::zero_past(rec, slots::COMMAND, 100, n) {
        SlotPart::PastCommand
    } else if !slots::zero_past(rec, slots::TOKEN, 64, m) {
        SlotPart::PastToken
    } else {
        SlotPart::Unnamed
    }
}

// The part of a record that is unsound.
#[tactic(auto, unfolding(crate::specs::Parts::open_part, slots::specs::Slot::command_length, slots::specs::Slot::token_length, slots::specs::Slot::state_number, slots::specs::Slot::slot_unit))]
fn open_part(rec: &Record) -> SlotPart
    ensures { result ≡ open_part rec.now }
{
    let n = wire::number::<2>(rec, slots::COMMAND_LENGTH) as usize;
    let m = wire::number::<2>(rec, slots::TOKEN_LENGTH) as usize;
    let code = wire::at(rec, slots::COMMAND);
    let legal = model::data_out(code) && model::legal_len(code, n);
    if !seal::is_checked(rec) {
        SlotPart::Check
    } else if wire::number::<2>(rec, slots::STATE) != 1 {
        SlotPart::State
    } else if 7 < wire::number::<2>(rec, slots::UNIT) {
        SlotPart::Unit
    } else if !slots::right_token(m) {
        SlotPart::TokenLength
    } else if !legal {
        SlotPart::Command
    } else {
        space_part(rec)
    }
}

// The first part of soundness that fails in a slot's record; none where the record is sound.
#[tactic(auto, unfolding(crate::specs::Parts::slot_part))]
pub fn slot_part(slots: &SlotTable, slot: Slot) -> Option<SlotPart>
    ensures { result ≡ slot_part (slot_at slot slots.now) }
{
    let rec = slots::record_of(slots, slot);
    match slots::slot_state(rec) {
        SlotState::Unsound => Some(open_part(rec)),
        SlotState::Free | SlotState::Open => None,
    }
}
