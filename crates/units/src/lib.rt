// The table of eight unit records: what a unit's record is, what makes one sound, and which keeps a unit's keys.
#![tactic(auto)]

mod fields;

ghost use Rattle.std.specs.Prelude.{◌≡◌};
ghost use Rattle.units.specs.declared.UnitState.TheVariants.{Used};
ghost use Rattle.units.specs.Unit.{keys_zero, no_keys, keeper_shape, used_shape, unit_state_of, unit_at, keeper_of, key_set_of, is_used, keeps_keys, unit_state};

pub use fields::{
    AUTH_KEY, GEN_KEY, LAYOUT, NEXT_AUTH_KEY, NEXT_GEN_KEY, NUMBER, UNNAMED, WORKING_KEYS,
    auth_key_of, clear_next_and_working, gen_key_of, has_bit, identifier_of, keeper_field_of,
    mask_of, method_of, next_auth_key_of, next_gen_key_of, set_mask, set_method, set_next_pair,
    set_pair, set_step, set_tag, set_working_key, step_of, tag_of, working_key, working_key_of,
    write_built,
};
use model::{KeyVersion, Unit, UnitNo};
use seal::Record;

pub type UnitTable = [u8; 4096];

// What the record of a unit is. Not one type with a slot's: their definitions are two, and name what is no unit's or no slot's.
#[derive(Clone, Copy, PartialEq, Eq)]
pub enum UnitState {
    Unused,
    Used,
    Unsound,
}

// Is each working key zero that the mask does not call valid?
fn keys_zero(rec: &Record) -> bool
    ensures { result ≡ keys_zero 16 rec.now }
{
    let mask = mask_of(rec);
    for v in 0..16 {
        let valid = has_bit(mask, KeyVersion::new(v).unwrap());
        if !valid && !wire::are_zeros(rec, WORKING_KEYS + 20 * (v as usize), 20) {
            return false;
        }
    }
    true
}

// Are mask, step and all key bytes zero?
#[tactic(auto, unfolding(crate::specs::Unit::no_keys))]
fn has_no_keys(rec: &Record) -> bool
    ensures { result ≡ no_keys rec.now }
{
    mask_of(rec) == 0 && step_of(rec) == 0 && wire::are_zeros(rec, AUTH_KEY, 400)
}

// Has it own keys, or a keeper of 0 to 7 and none?
#[tactic(auto, unfolding(crate::specs::Unit::keeper_shape))]
fn keeper_shape(rec: &Record) -> bool
    ensures { result ≡ keeper_shape rec.now }
{
    let field = keeper_field_of(rec);
    field == 0 || (field <= 8 && has_no_keys(rec))
}

// Has the record the shape of a used one at its place?
#[tactic(auto, unfolding(crate::specs::Unit::used_shape, crate::specs::Unit::layout, crate::specs::Unit::unit_number, crate::specs::Unit::next_pair_zero, crate::specs::Unit::unnamed_zero))]
fn used_shape(rec: &Record, place: UnitNo) -> bool
    ensures { result ≡ used_shape place.0 rec.now }
{
    wire::number::<2>(rec, LAYOUT) == 1
        && wire::number::<2>(rec, NUMBER) as u32 == place.0
        && method_of(rec) <= 1
        && step_of(rec) <= 1
        && (step_of(rec) == 1 || wire::are_zeros(rec, NEXT_AUTH_KEY, 40))
        && keys_zero(rec)
        && keeper_shape(rec)
        && wire::are_zeros(rec, UNNAMED, 58)
}

// The state of a record at its place, by its own bytes. An unused one is found without a hash.
pub fn state_of(rec: &Record, place: UnitNo) -> UnitState
    ensures { result ≡ unit_state_of place.0 rec.now }
{
    if seal::is_blank(rec) {
        return UnitState::Unused;
    }
    if used_shape(rec, place) && seal::is_checked(rec) {
        return UnitState::Used;
    }
    UnitState::Unsound
}

// A unit's record in the table.
pub fn record_of(units: &UnitTable, unit: Unit) -> &Record
    ensures { result.now ≡ unit_at unit units.now }
{
    seal::record_at(units, unit.no().0 as usize)
}

fn is_used(s: UnitState) -> bool
    ensures { result ≡ is_used s }
{
    s == UnitState::Used
}

// May the unit keep keys? The field is looked at first, so that a record that names itself is not hashed twice.
pub fn keeps_keys(units: &UnitTable, unit: Unit) -> bool
    ensures { result ≡ keeps_keys units.now unit }
{
    let rec = record_of(units, unit);
    keeper_field_of(rec) == 0 && is_used(state_of(rec, unit.no()))
}

// The state of a unit's record: by its own bytes, and a sharer's by its keeper's too.
pub fn unit_state(units: &UnitTable, unit: Unit) -> UnitState
    ensures { result ≡ unit_state units.now unit }
{
    let rec = record_of(units, unit);
    let state = state_of(rec, unit.no());
    let field = keeper_field_of(rec);
    if field == 0 || !is_used(state) {
        return state;
    }
    if keeps_keys(units, Unit::new(UnitNo(field - 1)).unwrap()) {
        UnitState::Used
    } else {
        UnitState::Unsound
    }
}

// The unit whose record keeps a used unit's keys, mask and step: itself, or the one that its field names. That it is used is asked here and
// in no type: it is a fact of the table as well, which those who know it go on to write.
pub fn keeper_of(units: &UnitTable, unit: Unit) -> Unit
    requires { unit_state units.now unit ≡ Used }
    ensures { result ≡ keeper_of units.now unit }
{
    let field = keeper_field_of(record_of(units, unit));
    if field == 0 {
        return unit;
    }
    Unit::new(UnitNo(field - 1)).unwrap()
}

// The key set of a used unit: the record of its keeper.
#[tactic(auto, unfolding(crate::specs::Unit::key_set_of))]
pub fn keys_of(units: &UnitTable, unit: Unit) -> &Record
    requires { unit_state units.now unit ≡ Used }
    ensures { result.now ≡ key_set_of units.now unit }
{
    record_of(units, keeper_of(units, unit))
}

// The two records that a command at a used unit is judged by: the unit's own, and that of its key set.
#[derive(Clone, Copy)]
pub struct Records<'a> {
    pub own: &'a Record,
    pub keys: &'a Record,
}

pub fn records_of(units: &UnitTable, unit: Unit) -> Records<'_>
    requires { unit_state units.now unit ≡ Used }
    ensures { (result.own.now ≡ unit_at unit units.now) × (result.keys.now ≡ key_set_of units.now unit) }
{
    let own = record_of(units, unit);
    let keys = keys_of(units, unit);
    Records { own, keys }
}
