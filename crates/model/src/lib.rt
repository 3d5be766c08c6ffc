// The numbers that calls pass, their answers, and what each command needs (document 01).
#![tactic(auto)]

mod commands;
mod controlled;
mod places;
mod reason;

ghost use Rattle.std.specs.Prelude.{◌≡◌};
ghost use Rattle.model.specs.Codes.{cdb_len, data_out, legal_len};
ghost use Rattle.model.specs.Refusal.{sense_key, additional_code, refusal};
ghost use Rattle.model.specs.Totals.{total_of};

pub use commands::{by_page, is_master, is_open_row, is_unknown, need_of};
pub use controlled::controlled_rows;
pub use places::{KeyVersion, Slot, Unit};
pub use reason::Reason;

// SECURITY PROTOCOL IN and OUT.
pub const PROTOCOL_IN: u8 = 0xA2;

pub const PROTOCOL_OUT: u8 = 0xB5;

// The pages of IN. A page is the number that a CDB names, whatever it is: each `match` over pages says what it makes of all others, which
// an enum would only put off to where it is made.
pub const PAGES_OF_IN: u32 = 0x0000;

pub const PAGES_OF_OUT: u32 = 0x0001;

pub const CAPABILITIES_IN: u32 = 0x0010;

pub const ATTRIBUTES_IN: u32 = 0x0011;

pub const SEED_IN: u32 = 0x0012;

pub const CONTROLLED_IN: u32 = 0x0013;

// The pages of OUT.
pub const SET_ATTRIBUTES: u32 = 0x0011;

pub const SEED_EXCHANGE: u32 = 0x0012;

pub const SET_KEY: u32 = 0x0014;

pub const CHANGE_MASTER: u32 = 0x0015;

// The numbers that callers pass, whatever they are. They are never taken for one another.
#[derive(Clone, Copy, PartialEq, Eq)]
pub struct UnitNo(pub u32);

#[derive(Clone, Copy, PartialEq, Eq)]
pub struct SlotNo(pub u32);

// What a unit is built of. The keeper is zero for own keys, or one more than the number of the unit that keeps them.
#[derive(Clone, Copy)]
pub struct Build {
    pub unit: UnitNo,
    pub method: u32,
    pub tag: u32,
    pub identifier: [u8; 16],
    pub auth_key: [u8; 20],
    pub gen_key: [u8; 20],
    pub keeper: u32,
}

// What goes with CHECK CONDITION: sense key, additional code and qualifier, and the reason's number (1b is 0x1b), for which `refusal` and
// the C face's word have any number.
#[derive(Clone, Copy, PartialEq, Eq)]
pub struct Sense {
    pub key: u8,
    pub code: u8,
    pub qualifier: u8,
    pub reason: u8,
}

// A0 to A4 and H1 to H5.
#[derive(Clone, Copy, PartialEq, Eq)]
pub enum Answer {
    Good(u32),
    Parked(SlotNo),
    Run,
    Check(Sense),
    Full,
    H1,
    H2,
    H3,
    H4,
    H5,
}

// What a command needs: nothing (Open), permission bits, or permission bits under a master key. An Unknown one is refused.
#[derive(Clone, Copy, PartialEq, Eq)]
pub enum Need {
    Unknown,
    Open,
    Bits(u8),
    Master(u8),
}

// 5h, except reason 1b.
#[tactic(auto, unfolding(crate::specs::Refusal::sense_key))]
fn sense_key(reason: u8) -> u8
    ensures { result ≡ sense_key reason }
{
    if reason == 0x1b { 0x4 } else { 0x5 }
}

// The additional code; the qualifier is 00h for every reason.
#[tactic(auto, unfolding(crate::specs::Refusal::additional_code))]
fn additional_code(reason: u8) -> u8
    ensures { result ≡ additional_code reason }
{
    match reason {
        1 => 0x25,
        0x1b => 0x44,
        2 => 0x20,
        16 | 18 => 0x1A,
        19 => 0x26,
        _ => 0x24,
    }
}

// The answer that a reason gives: A3, with the sense that document 01 has for it.
#[tactic(auto, unfolding(crate::specs::Refusal::refusal))]
pub fn refuse(reason: u8) -> Answer
    ensures { result ≡ refusal reason }
{
    let key = sense_key(reason);
    let code = additional_code(reason);
    Answer::Check(Sense {
        key,
        code,
        qualifier: 0x00,
        reason,
    })
}

// The CDB's length, 0 where the code has none: a length like any other for who cuts a command there, and no command's.
// It stays a number: the definition `cdb_len` gives 0, and `legal_len` takes it as a length.
#[tactic(auto, unfolding(crate::specs::Codes::cdb_len))]
pub fn cdb_len(code: u8) -> u32
    ensures { result ≡ cdb_len code }
{
    match code {
        0x00..=0x1F => 6,
        0x20..=0x5F => 10,
        0x80..=0x9F => 16,
        0xA0..=0xBF => 12,
        _ => 0,
    }
}

// Does a command of this code carry data out?
#[tactic(auto, unfolding(crate::specs::Codes::data_out))]
pub fn data_out(code: u8) -> bool
    ensures { result ≡ data_out code }
{
    matches!(code, 0x0A | 0x15 | 0x2A | 0x2E | 0x55 | 0x8A | 0xAA | 0xB5)
}

// May a command of this code be n bytes long: the CDB alone, or with descriptor and integrity check value after it?
#[tactic(auto, unfolding(crate::specs::Codes::legal_len))]
pub fn legal_len(code: u8, n: usize) -> bool
    ensures { result ≡ legal_len code n }
{
    let cdb = cdb_len(code) as usize;
    cdb != 0 && (n == cdb || n == cdb + 78)
}

// The total bytes of an Out page's parameter list, 0 for any other page (docs/DECISIONS.md, D20): the definition
// `total_of` gives 0, and the tests of a list take it as a length.
#[tactic(auto, unfolding(crate::specs::Totals::total_of))]
pub fn out_total(page: u32) -> u32
    ensures { result ≡ total_of page }
{
    match page {
        SET_ATTRIBUTES => 12,
        SET_KEY => 28,
        SEED_EXCHANGE => 264,
        CHANGE_MASTER => 4,
        _ => 0,
    }
}
