// The key that a capability is checked under, and the check.
ghost use Rattle.std.specs.Prelude.{◌≡◌, true, not, ◌++◌, Some, None};
ghost use Rattle.choice.specs.Choice.{pick};
ghost use Rattle.wire.specs.Bytes.{same};
ghost use Rattle.hmac.specs.Hmac.{by_sha1};
ghost use Rattle.model.specs.Reason.{reason_of};
ghost use Rattle.model.specs.Rows.{is_master};
ghost use Rattle.judge.specs.Command.{is_change, need_for};
ghost use Rattle.judge.specs.Judgement.{first, found_tests, value_tests};
ghost use Rattle.judge.specs.Keys.{key_found, key_used, validation_tag, tag_for};

use super::command::Command;
use model::{KeyVersion, Reason};
use seal::Record;

// The authentication master key of a key set, for version 0; for Change the next one, which is there at step 1.
#[tactic(auto, unfolding(crate::specs::Keys::key_found, crate::specs::Keys::key_used))]
fn master_key(keys: &Record, change: bool, version: KeyVersion) -> Option<[u8; 20]>
    ensures { result ≡ pick (key_found keys.now true change version) (Some (key_used keys.now true change version)) None }
{
    if version.number() != 0 {
        return None;
    }
    if !change {
        return Some(units::auth_key_of(keys));
    }
    if units::step_of(keys) != 1 {
        return None;
    }
    Some(units::next_auth_key_of(keys))
}

// The key for a command, if there is one: a lack is reason 14.
#[tactic(auto, unfolding(crate::specs::Keys::key_found, crate::specs::Keys::key_used))]
fn chosen_key(keys: &Record, master: bool, change: bool, version: KeyVersion) -> Option<[u8; 20]>
    ensures { result ≡ pick (key_found keys.now master change version) (Some (key_used keys.now master change version)) None }
{
    if master {
        return master_key(keys, change, version);
    }
    units::working_key_of(keys, version)
}

// The validation tag: the HMAC over the token under the capability key, which is the HMAC over the descriptor under the key. Everything
// that wants one calls this.
#[tactic(auto, unfolding(crate::specs::Keys::validation_tag))]
fn validation_tag(key: &[u8], descriptor: &[u8], token: &[u8]) -> [u8; 20]
    ensures { result ≡ validation_tag by_sha1 key.now descriptor.now token.now }
{
    let capability = hmac::hmac_of(key, descriptor);
    hmac::hmac_of(&capability, token)
}

// Does the integrity check value differ from the validation tag?
#[tactic(auto, unfolding(crate::specs::Keys::tag_for))]
fn wrong_value(key: [u8; 20], descriptor: &[u8], value: [u8; 20], token: &[u8]) -> bool
    ensures { result ≡ not (same (tag_for key descriptor.now token.now) value) }
{
    let tag = validation_tag(&key, descriptor, token);
    !wire::same(&tag, &value)
}

// 14 and 15. Nothing is hashed where CAPKEY doesn't rule or there is no key.
#[tactic(auto, unfolding(crate::specs::Judgement::found_tests, crate::specs::Judgement::value_tests, crate::specs::Descriptor::key_version))]
pub fn key_check(
    rules: bool,
    keys: &Record,
    command: &Command,
    descriptor: &[u8],
    value: [u8; 20],
    token: &[u8],
) -> Result<(), Reason>
    ensures { reason_of result ≡ first (found_tests rules keys.now (is_master (need_for command.now)) (is_change command.now) descriptor.now ++ value_tests rules keys.now (is_master (need_for command.now)) (is_change command.now) descriptor.now value token.now) }
{
    if !rules {
        return Ok(());
    }
    let version = KeyVersion::new((wire::at(descriptor, 0) % 16) as u32).unwrap();
    let master = model::is_master(command.facts().need);
    let key = chosen_key(keys, master, command.is_change(), version).ok_or(Reason::NoKey)?;
    if wrong_value(key, descriptor, value, token) {
        return Err(Reason::WrongValue);
    }
    Ok(())
}
