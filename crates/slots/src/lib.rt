// The table of sixteen slots: what a slot's record is, the lowest free slot, and a slot parked, freed, all freed.
#![tactic(auto)]

ghost use Rattle.std.specs.Prelude.{◌≡◌, ◌+◌, ◌-◌, ◌≤◌, ◌<◌, length};
ghost use Rattle.wire.specs.Bytes.{zeros};
ghost use Rattle.slots.specs.Slot.{right_token, slot_unit, slot_command, slot_token, open_shape, slot_state_of, open_head, open_record};
ghost use Rattle.slots.specs.Slot.{slot_at, is_free, is_open, lowest_free, parked, freed, all_freed};
ghost use Rattle.slots.specs.declared.SlotState.TheVariants.{Open};

use model::{Slot, SlotNo, UnitNo};
use seal::Record;

pub type SlotTable = [u8; 8192];

// Where the fields of a slot's record stand (document 01, "Records of 512 bytes", Slot).
pub const STATE: usize = 0;

pub const UNIT: usize = 2;

pub const COMMAND_LENGTH: usize = 4;

pub const TOKEN_LENGTH: usize = 6;

pub const COMMAND: usize = 8;

pub const TOKEN: usize = 108;

const UNNAMED: usize = 172;

// What the record of a slot is. Not one type with a unit's: their definitions are two, and name what is no unit's or no slot's.
#[derive(Clone, Copy, PartialEq, Eq)]
pub enum SlotState {
    Free,
    Open,
    Unsound,
}

// Is a token of n bytes one of 16 to 64?
#[tactic(auto, unfolding(crate::specs::Slot::right_token))]
pub fn right_token(n: usize) -> bool
    ensures { result ≡ right_token n }
{
    16 <= n && n <= 64
}

// Are the bytes zero that are left of the room from a on, where n are used?
pub fn zero_past(rec: &[u8], a: usize, room: usize, n: usize) -> bool
    requires { (a < 512) × (room < 512) }
    ensures { result ≡ zeros (room - n) (a + n) rec.now }
{
    n >= room || wire::are_zeros(rec, a + n, room - n)
}

// Has the record the shape of an open slot, with zeros where nothing is stored?
#[tactic(auto, unfolding(crate::specs::Slot::open_shape, crate::specs::Slot::state_number, crate::specs::Slot::slot_unit, crate::specs::Slot::command_length, crate::specs::Slot::token_length))]
fn open_shape(rec: &Record) -> bool
    ensures { result ≡ open_shape rec.now }
{
    let n = wire::number::<2>(rec, COMMAND_LENGTH) as usize;
    let m = wire::number::<2>(rec, TOKEN_LENGTH) as usize;
    let code = wire::at(rec, COMMAND);
    wire::number::<2>(rec, STATE) == 1
        && wire::number::<2>(rec, UNIT) <= 7
        && right_token(m)
        && model::data_out(code)
        && model::legal_len(code, n)
        && zero_past(rec, COMMAND, 100, n)
        && zero_past(rec, TOKEN, 64, m)
        && wire::are_zeros(rec, UNNAMED, 320)
}

// What the record is. A free one, the blank record, is told without hashing.
pub fn slot_state(rec: &Record) -> SlotState
    ensures { result ≡ slot_state_of rec.now }
{
    if seal::is_blank(rec) {
        return SlotState::Free;
    }
    if seal::is_checked(rec) && open_shape(rec) {
        return SlotState::Open;
    }
    SlotState::Unsound
}

// A slot's record in the table.
pub fn record_of(slots: &SlotTable, slot: Slot) -> &Record
    ensures { result.now ≡ slot_at slot slots.now }
{
    seal::record_at(slots, slot.no().0 as usize)
}

// The record of a sound open slot.
#[derive(Clone, Copy)]
pub struct OpenRecord<'a> {
    pub rec: &'a Record,
    pub ghost open: { slot_state_of rec.now ≡ Open },
}

// The unit, the command and the token that an open slot holds.
#[tactic(auto, unfolding(crate::specs::Slot::slot_unit))]
pub fn unit_of(rec: &[u8]) -> UnitNo
    ensures { result.0 ≡ slot_unit rec.now }
{
    UnitNo(wire::number::<2>(rec, UNIT) as u32)
}

pub fn command_of<'a>(held: OpenRecord<'a>) -> &'a [u8]
    ensures { result.now ≡ slot_command held.entry.rec.now }
{
    let rec = held.rec;
    let n = wire::number::<2>(rec, COMMAND_LENGTH) as usize;
    &rec[COMMAND..COMMAND + n]
}

pub fn token_of<'a>(held: OpenRecord<'a>) -> &'a [u8]
    ensures { result.now ≡ slot_token held.entry.rec.now }
{
    let rec = held.rec;
    let m = wire::number::<2>(rec, TOKEN_LENGTH) as usize;
    &rec[TOKEN..TOKEN + m]
}

// Is it the record of a sound and free slot? Nothing is hashed.
fn is_free(rec: &Record) -> bool
    ensures { result ≡ is_free (slot_state_of rec.now) }
{
    seal::is_blank(rec)
}

// Is the slot sound and free? Nothing is hashed.
pub fn is_free_at(slots: &SlotTable, slot: Slot) -> bool
    ensures { result ≡ is_free (slot_state_of (slot_at slot slots.now)) }
{
    is_free(record_of(slots, slot))
}

// Is the slot sound and open?
pub fn is_open_at(slots: &SlotTable, slot: Slot) -> bool
    ensures { result ≡ is_open (slot_state_of (slot_at slot slots.now)) }
{
    slot_state(record_of(slots, slot)) == SlotState::Open
}

// The lowest sound free slot. Nothing is hashed.
pub fn lowest_free(slots: &SlotTable) -> Option<Slot>
    ensures { result ≡ lowest_free slots.now }
{
    for i in 0..16 {
        let slot = Slot::new(SlotNo(i)).unwrap();
        if is_free_at(slots, slot) {
            return Some(slot);
        }
    }
    None
}

// The first eight bytes of an open slot: state, unit, and the lengths of command and token.
fn open_head(unit: UnitNo, n: u32, m: u32) -> [u8; 8]
    ensures { result ≡ open_head unit.0 n m }
{
    let u = wire::bytes_of::<2>(unit.0);
    let c = wire::bytes_of::<2>(n);
    let t = wire::bytes_of::<2>(m);
    [0, 1, u[0], u[1], c[0], c[1], t[0], t[1]]
}

// Makes the record of an open slot. (On its lengths, see `park`.)
fn write_open(rec: &mut Record, unit: UnitNo, command: &[u8], token: &[u8])
    requires { (length command.now ≤ 100) × (length token.now ≤ 64) }
    ensures { rec.new ≡ open_record unit.0 command.now token.now }
{
    let head = open_head(unit, command.len() as u32, token.len() as u32);
    rec.fill(0);
    wire::put(rec, STATE, &head);
    wire::put(rec, COMMAND, command);
    wire::put(rec, TOKEN, token);
    seal::seal_record(rec);
}

// Parks a command in the slot. Its lengths stay clauses: a type for them would be made and taken apart
// again at the one call.
pub fn park(slots: &mut SlotTable, slot: Slot, unit: UnitNo, command: &[u8], token: &[u8])
    requires { (length command.now ≤ 100) × (length token.now ≤ 64) }
    ensures { slots.new ≡ parked slot unit.0 command.now token.now slots.old }
{
    let a = slot.no().0 as usize * 512;
    let (_, rest) = slots.split_at_mut(a);
    write_open(rest.first_chunk_mut().unwrap(), unit, command, token);
}

// Frees the slot. Nothing is hashed.
pub fn free(slots: &mut SlotTable, slot: Slot)
    ensures { slots.new ≡ freed slot slots.old }
{
    let a = slot.no().0 as usize * 512;
    let (_, rest) = slots.split_at_mut(a);
    seal::make_blank(rest.first_chunk_mut().unwrap());
}

// Frees all sixteen.
pub fn free_all(slots: &mut SlotTable)
    ensures { slots.new ≡ all_freed slots.old }
{
    for next in 0..16 {
        free(slots, Slot::new(SlotNo(next)).unwrap());
    }
}
