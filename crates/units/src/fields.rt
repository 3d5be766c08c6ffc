// The fields of a unit's record (document 01, "Records of 512 bytes", Unit; 02, K4): where each stands, how it is read and how written.
ghost use Rattle.std.specs.Prelude.{◌≡◌, Some, None, ◌++◌, ◌+◌, ◌≤◌, ◌/◌, ◌%◌, ◌^◌, eqb, length};
ghost use Rattle.choice.specs.Choice.{pick};
ghost use Rattle.wire.specs.Bytes.{bytes_of, patch};
ghost use Rattle.units.specs.Unit.{method, mask, policy_tag, step, identifier, auth_key_of, gen_key_of, next_auth_key, next_gen_key, keeper_field};
ghost use Rattle.units.specs.Unit.{is_valid, working_key, with_method, with_mask, with_tag, with_step, with_pair, with_next_pair};
ghost use Rattle.units.specs.Unit.{with_working_key, without_next_and_working};
ghost use Rattle.seal.specs.Seal.{blank};
ghost use Rattle.units.specs.Fields.{used_record, own_key, built};

use model::{Build, KeyVersion};
use seal::Record;

pub const LAYOUT: usize = 0;

pub const NUMBER: usize = 2;

const METHOD: usize = 4;

const MASK: usize = 6;

const TAG: usize = 8;

const STEP: usize = 12;

const IDENTIFIER: usize = 16;

pub const AUTH_KEY: usize = 32;

pub const GEN_KEY: usize = 52;

pub const NEXT_AUTH_KEY: usize = 72;

pub const NEXT_GEN_KEY: usize = 92;

pub const WORKING_KEYS: usize = 112;

pub const KEEPER: usize = 432;

pub const UNNAMED: usize = 434;

// ---- read; a function for each field, and not one over a place, since its contract says the field's own definition. A field is a number as
// its definition has it, since a damaged record holds any

#[tactic(auto, unfolding(crate::specs::Unit::method))]
pub fn method_of(rec: &[u8]) -> u32
    ensures { result ≡ method rec.now }
{
    wire::number::<2>(rec, METHOD) as u32
}

// The mask of valid working keys.
#[tactic(auto, unfolding(crate::specs::Unit::mask))]
pub fn mask_of(rec: &[u8]) -> u32
    ensures { result ≡ mask rec.now }
{
    wire::number::<2>(rec, MASK) as u32
}

// The policy access tag.
#[tactic(auto, unfolding(crate::specs::Unit::policy_tag))]
pub fn tag_of(rec: &[u8]) -> u32
    ensures { result ≡ policy_tag rec.now }
{
    wire::number::<4>(rec, TAG) as u32
}

#[tactic(auto, unfolding(crate::specs::Unit::step))]
pub fn step_of(rec: &[u8]) -> u32
    ensures { result ≡ step rec.now }
{
    wire::number::<4>(rec, STEP) as u32
}

// Zero for own keys, or one more than the number of the unit that keeps them.
#[tactic(auto, unfolding(crate::specs::Unit::keeper_field))]
pub fn keeper_field_of(rec: &[u8]) -> u32
    ensures { result ≡ keeper_field rec.now }
{
    wire::number::<2>(rec, KEEPER) as u32
}

#[tactic(auto, unfolding(crate::specs::Unit::identifier))]
pub fn identifier_of(rec: &Record) -> &[u8]
    ensures { result.now ≡ identifier rec.now }
{
    &rec[IDENTIFIER..AUTH_KEY]
}

// The master keys, and the next pair of them.
#[tactic(auto, unfolding(crate::specs::Unit::auth_key_of))]
pub fn auth_key_of(rec: &Record) -> [u8; 20]
    ensures { result ≡ auth_key_of rec.now }
{
    wire::array::<20>(rec, AUTH_KEY)
}

#[tactic(auto, unfolding(crate::specs::Unit::gen_key_of))]
pub fn gen_key_of(rec: &Record) -> [u8; 20]
    ensures { result ≡ gen_key_of rec.now }
{
    wire::array::<20>(rec, GEN_KEY)
}

#[tactic(auto, unfolding(crate::specs::Unit::next_auth_key))]
pub fn next_auth_key_of(rec: &Record) -> [u8; 20]
    ensures { result ≡ next_auth_key rec.now }
{
    wire::array::<20>(rec, NEXT_AUTH_KEY)
}

#[tactic(auto, unfolding(crate::specs::Unit::next_gen_key))]
pub fn next_gen_key_of(rec: &Record) -> [u8; 20]
    ensures { result ≡ next_gen_key rec.now }
{
    wire::array::<20>(rec, NEXT_GEN_KEY)
}

// Does the mask call the version's key valid?
pub fn has_bit(mask: u32, version: KeyVersion) -> bool
    ensures { result ≡ eqb (mask / 2 ^ version % 2) 1 }
{
    (mask >> version.number()) % 2 == 1
}

// The bytes of a version's working key, valid or not.
#[tactic(auto, unfolding(crate::specs::Unit::working_key))]
pub fn working_key(rec: &Record, version: KeyVersion) -> [u8; 20]
    ensures { result ≡ working_key version rec.now }
{
    wire::array::<20>(rec, WORKING_KEYS + 20 * (version.number() as usize))
}

// The working key of a version, where the mask calls it valid.
#[tactic(auto, unfolding(crate::specs::Unit::is_valid))]
pub fn working_key_of(rec: &Record, version: KeyVersion) -> Option<[u8; 20]>
    ensures { result ≡ pick (is_valid version rec.now) (Some (working_key version rec.now)) None }
{
    if has_bit(mask_of(rec), version) {
        Some(working_key(rec, version))
    } else {
        None
    }
}

// ---- written, each by its own function too; the check is made anew by whoever is done with a record

// Two keys from a on, one behind the other.
fn put_keys(rec: &mut Record, a: usize, first: [u8; 20], second: [u8; 20])
    requires { a + 40 ≤ 512 }
    ensures { rec.new ≡ patch rec.old a («first» ++ «second») }
{
    wire::put(rec, a, &first);
    wire::put(rec, a + 20, &second);
}

pub fn set_method(rec: &mut Record, m: u32)
    ensures { rec.new ≡ with_method m rec.old }
{
    wire::put(rec, METHOD, &wire::bytes_of::<2>(m));
}

pub fn set_mask(rec: &mut Record, m: u32)
    ensures { rec.new ≡ with_mask m rec.old }
{
    wire::put(rec, MASK, &wire::bytes_of::<2>(m));
}

pub fn set_tag(rec: &mut Record, t: u32)
    ensures { rec.new ≡ with_tag t rec.old }
{
    wire::put(rec, TAG, &wire::bytes_of::<4>(t));
}

pub fn set_step(rec: &mut Record, s: u32)
    ensures { rec.new ≡ with_step s rec.old }
{
    wire::put(rec, STEP, &wire::bytes_of::<4>(s));
}

// The pair of master keys, and the next pair.
pub fn set_pair(rec: &mut Record, auth: [u8; 20], generation: [u8; 20])
    ensures { rec.new ≡ with_pair «auth» «generation» rec.old }
{
    put_keys(rec, AUTH_KEY, auth, generation);
}

pub fn set_next_pair(rec: &mut Record, auth: [u8; 20], generation: [u8; 20])
    ensures { rec.new ≡ with_next_pair «auth» «generation» rec.old }
{
    put_keys(rec, NEXT_AUTH_KEY, auth, generation);
}

pub fn set_working_key(rec: &mut Record, version: KeyVersion, key: [u8; 20])
    ensures { rec.new ≡ with_working_key version «key» rec.old }
{
    wire::put(rec, WORKING_KEYS + 20 * (version.number() as usize), &key);
}

// The next pair and all working keys, which stand one behind the other.
pub fn clear_next_and_working(rec: &mut Record)
    ensures { rec.new ≡ without_next_and_working rec.old }
{
    rec[NEXT_AUTH_KEY..KEEPER].fill(0);
}

// A key that is asked for; zeros at a sharer, which has none of its own.
fn own_key(keeper: u32, key: [u8; 20]) -> [u8; 20]
    ensures { result ≡ own_key keeper «key» }
{
    if keeper == 0 { key } else { [0u8; 20] }
}

// The pair of a unit that is built.
fn set_own_pair(rec: &mut Record, build: Build)
    ensures { rec.new ≡ with_pair (own_key build.keeper build.auth_key) (own_key build.keeper build.gen_key) rec.old }
{
    let auth = own_key(build.keeper, build.auth_key);
    let generation = own_key(build.keeper, build.gen_key);
    set_pair(rec, auth, generation);
}

// The numbers at the front of a record as it is built, and zeros behind them, over whatever stood there.
fn write_numbers(rec: &mut Record, build: Build)
    ensures { rec.new ≡ patch blank 0 (bytes_of 2 1 ++ (bytes_of 2 build.unit.0 ++ (bytes_of 2 build.method ++ (bytes_of 2 0 ++ (bytes_of 4 build.tag ++ bytes_of 4 0))))) }
{
    rec.fill(0);
    wire::put(rec, LAYOUT, &wire::bytes_of::<2>(1));
    wire::put(rec, NUMBER, &wire::bytes_of::<2>(build.unit.0));
    set_method(rec, build.method);
    set_mask(rec, 0);
    set_tag(rec, build.tag);
    set_step(rec, 0);
}

// A record as it is built, with its check, over whatever stood there. Its length is promised too: how long a lent record is after a
// call is no fact at the caller, which was tried.
pub fn write_built(rec: &mut Record, build: Build)
    ensures built { rec.new ≡ used_record (built build.unit.0 build.method build.tag build.identifier build.auth_key build.gen_key build.keeper) }
    ensures whole { length rec.new ≡ 512 }
{
    write_numbers(rec, build);
    wire::put(rec, IDENTIFIER, &build.identifier);
    set_own_pair(rec, build);
    wire::put(rec, KEEPER, &wire::bytes_of::<2>(build.keeper));
    seal::seal_record(rec);
}
