// What a GOOD Out page makes of a unit's attributes and of a key set (document 01, "Pages", Effects). A record is written by units'
// setters, and its check is made last.
ghost use Rattle.std.specs.Prelude.{◌≡◌, ◌++◌, false, ◌<◌, length};
ghost use Rattle.hmac.specs.Hmac.{hmac, by_sha1};
ghost use Rattle.model.specs.Totals.{total_of};
ghost use Rattle.units.specs.Unit.{identifier, gen_key_of};
ghost use Rattle.pages.specs.Out.{new_method, new_tag, wrong_list};
ghost use Rattle.pages.specs.Effects.{attributes_set, with_bit, working_key_set, last_flipped};
ghost use Rattle.pages.specs.Effects.{next_gen, next_auth, exchanged, changed, new_keys};

use super::lists::{Attributes, Head, Parameters, Wrong};
use hmac::Mac;
use model::KeyVersion;
use seal::Record;

// Set Attributes: the unit's method and tag, whatever else the list says. Its length is promised too: how long a lent record is after a
// call is no fact at the caller, which was tried.
pub fn set_attributes(own: &mut Record, list: &[u8])
    ensures set { own.new ≡ attributes_set (new_method list.now) (new_tag list.now) own.old }
    ensures whole { length own.new ≡ 512 }
{
    let attributes = Attributes::read(Head::read(list));
    units::set_method(own, attributes.method);
    units::set_tag(own, attributes.tag);
    seal::seal_record(own);
}

// The mask with the version's bit set.
fn with_bit(mask: u32, version: KeyVersion) -> u32
    ensures { result ≡ with_bit version mask }
{
    mask | (1 << version.number())
}

// The working key: HMAC under the generation master key over the seed.
fn made_key(keys: &Record, seed: &[u8]) -> [u8; 20]
    ensures { result ≡ hmac by_sha1 (gen_key_of keys.now) seed.now }
{
    let generation = units::gen_key_of(keys);
    hmac::hmac_of(&generation, seed)
}

// Set Key: the key of the version, and its mask bit.
fn set_key(keys: &mut Record, version: KeyVersion, seed: &[u8])
    ensures { keys.new ≡ working_key_set version seed.now keys.old }
{
    let key = made_key(keys, seed);
    let mask = with_bit(units::mask_of(keys), version);
    units::set_mask(keys, mask);
    units::set_working_key(keys, version, key);
    seal::seal_record(keys);
}

// HMAC over two parts, taken in one after another.
fn hmac_of_two(key: &[u8], first: &[u8], second: &[u8]) -> [u8; 20]
    ensures { result ≡ hmac by_sha1 key.now (first.now ++ second.now) }
{
    let mut mac = Mac::new(key);
    mac.feed(first);
    mac.feed(second);
    mac.finish()
}

// The identifier of the unit that keeps the keys, with the lowest bit of its last byte inverted.
fn flipped_identifier(keys: &Record) -> [u8; 16]
    ensures { result ≡ last_flipped (identifier keys.now) }
{
    let mut id = [0; 16];
    id.copy_from_slice(units::identifier_of(keys));
    id[15] ^= 1;
    id
}

// Both next keys of a Seed Exchange.
#[derive(Clone, Copy)]
struct Pair {
    auth: [u8; 20],
    generation: [u8; 20],
}

// The next pair: HMACs under the generation master key over S, and over S with the lowest bit of its last byte inverted.
fn next_pair(keys: &Record, value: &[u8]) -> Pair
    ensures { (result.auth ≡ next_auth value.now keys.now) × (result.generation ≡ next_gen value.now keys.now) }
{
    let key = units::gen_key_of(keys);
    let flipped = flipped_identifier(keys);
    let generation = hmac_of_two(&key, value, units::identifier_of(keys));
    let auth = hmac_of_two(&key, value, &flipped);
    Pair { auth, generation }
}

// Seed Exchange: the next pair, and step 1.
fn exchange(keys: &mut Record, value: &[u8])
    ensures { keys.new ≡ exchanged value.now keys.old }
{
    let Pair { auth, generation } = next_pair(keys, value);
    units::set_step(keys, 1);
    units::set_next_pair(keys, auth, generation);
    seal::seal_record(keys);
}

// Change: the next pair becomes the pair; next and working keys, mask and step are zero.
fn change(keys: &mut Record)
    ensures { keys.new ≡ changed keys.old }
{
    let auth = units::next_auth_key_of(keys);
    let generation = units::next_gen_key_of(keys);
    units::set_mask(keys, 0);
    units::set_step(keys, 0);
    units::set_pair(keys, auth, generation);
    units::clear_next_and_working(keys);
    seal::seal_record(keys);
}

// What the page makes of a key set, with a list that nothing is wrong with. A page that is none of the three leaves it alone.
// Its clauses on the list stay, since its contract takes page and list. The record's length is promised as above.
pub fn set_keys(keys: &mut Record, page: u32, list: &[u8])
    requires { (length list.now ≡ total_of page) × (wrong_list page list.now ≡ false) }
    ensures set { keys.new ≡ new_keys page list.now keys.old }
    ensures whole { length keys.new ≡ 512 }
{
    match Parameters::read(page, list) {
        Ok(Parameters::Key(new)) => set_key(keys, new.version, new.seed),
        Ok(Parameters::Exchange { value }) => exchange(keys, value),
        Ok(Parameters::Change) => change(keys),
        // These are no keys, and nothing is wrong with the list.
        Ok(Parameters::Attributes(_)) => {}
        Err(Wrong) => {}
    }
}
