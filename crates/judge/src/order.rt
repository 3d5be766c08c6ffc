// The judgement of an open in document 01's order: reasons 1 to 17, group by group, the dear checks last. Token and clock are handed on as
// the call is given them: no fact ties one to the other.
ghost use Rattle.std.specs.Prelude.{◌≡◌, true, List, ◌++◌, ℕ, ◌+◌, ◌≤◌, length, IfOk};
ghost use Rattle.model.specs.Codes.{cdb_len, legal_len};
ghost use Rattle.model.specs.Reason.{reason_of};
ghost use Rattle.judge.specs.Command.{code_of};
ghost use Rattle.judge.specs.Seen.{seen};
ghost use Rattle.judge.specs.Judgement.{first, rules_for, skips_guard, guard_tests, earlier_tests, later_tests, open_reason};
ghost use Rattle.judge.specs.Order.{wrapped_tests};

use super::command::Command;
use super::groups::{
    code_check, fact_check, form_check, length_check, page_check, protocol_check, unit_check,
};
use super::keys::key_check;
use model::{Reason, Unit, UnitNo};
use units::{Records, UnitTable};

// 7 to 15, of a wrapped command. Nothing is hashed where 7 to 13 refuse.
#[tactic(auto, unfolding(crate::specs::Order::wrapped_tests), using(crate::proofs::OrderLaws::refused, crate::proofs::OrderLaws::passed, crate::proofs::OrderLaws::form_named, crate::proofs::OrderLaws::fact_named, crate::proofs::JudgementLaws::descriptor_fits, crate::proofs::JudgementLaws::descriptor_lent, crate::proofs::JudgementLaws::value_lent))]
fn wrapped_check(
    records: Records,
    command: &Command,
    rules: bool,
    token: &[u8],
    clock: u64,
) -> Result<(), Reason>
    requires { (cdb_len (code_of command.now) + 78 ≤ length command.now) × (rules ≡ rules_for records.own.now command.now) }
    ensures { reason_of result ≡ first (wrapped_tests records.entry.own.now records.entry.keys.now command.now token.now clock) }
{
    let Records { own, keys } = records;
    let facts = command.facts();
    let bytes = command.bytes();
    let a = model::cdb_len(facts.code) as usize;
    let e = a + 58;
    let descriptor = &bytes[a..e];
    form_check(rules, descriptor)?;
    fact_check(facts.need, own, descriptor, clock)?;
    let value = wire::array::<20>(bytes, e);
    key_check(rules, keys, command, descriptor, value, token)
}

// Are 6 to 15 skipped? rules says whether CAPKEY rules.
#[tactic(auto, unfolding(crate::specs::Judgement::skips_guard))]
fn skips_guard(rules: bool, command: &Command) -> bool
    ensures { (own : List ℕ) → rules ≡ rules_for own command.now → result ≡ skips_guard own command.now }
{
    model::is_open_row(command.facts().need) || (command.is_bare() && !rules)
}

// 6 to 15.
#[tactic(auto, using(crate::proofs::JudgementLaws::guard_skipped, crate::proofs::JudgementLaws::guard_bare, crate::proofs::JudgementLaws::guard_wrapped, crate::proofs::JudgementLaws::wrapped_length))]
fn guard_check(records: Records, command: &Command, token: &[u8], clock: u64) -> Result<(), Reason>
    requires { legal_len (code_of command.now) (length command.now) ≡ true }
    ensures { reason_of result ≡ first (guard_tests records.entry.own.now records.entry.keys.now command.now token.now clock) }
{
    let own = records.own;
    let rules = command.is_ruled(own);
    if skips_guard(rules, command) {
        return Ok(());
    }
    if command.is_bare() {
        return Err(Reason::NoCapability);
    }
    wrapped_check(records, command, rules, token, clock)
}

// 1 to 3; the unit, where they pass.
#[tactic(auto, unfolding(crate::specs::Judgement::earlier_tests), using(crate::proofs::OrderLaws::refused, crate::proofs::OrderLaws::passed, crate::proofs::OrderLaws::unit_named, crate::proofs::OrderLaws::code_named))]
pub fn earlier_check(units: &UnitTable, unit: UnitNo, command: &Command) -> Result<Unit, Reason>
    ensures reason { reason_of result ≡ first (earlier_tests (seen units.now unit.0) command.now) }
    ensures unit { IfOk result (λ u. u ≡ unit.0) }
{
    let there = unit_check(units, unit)?;
    code_check(command)?;
    length_check(command)?;
    Ok(there)
}

// 4 and everything after it: a caller that has judged the unit and the code in another way goes on here.
#[tactic(auto, unfolding(crate::specs::Judgement::later_tests), using(crate::proofs::OrderLaws::refused, crate::proofs::OrderLaws::passed, crate::proofs::JudgementLaws::protocol_named, crate::proofs::JudgementLaws::guard_named))]
pub fn later_check(
    records: Records,
    command: &Command,
    token: &[u8],
    clock: u64,
) -> Result<(), Reason>
    requires { legal_len (code_of command.now) (length command.now) ≡ true }
    ensures { reason_of result ≡ first (later_tests records.entry.own.now records.entry.keys.now command.now token.now clock) }
{
    protocol_check(command)?;
    let keys = records.keys;
    guard_check(records, command, token, clock)?;
    page_check(keys, command)
}

// Whether an open is refused, and for which reason; the unit, where it passes.
#[tactic(auto, unfolding(crate::specs::Judgement::open_reason, crate::specs::Judgement::open_tests), using(crate::proofs::OrderLaws::refused, crate::proofs::OrderLaws::passed, crate::proofs::JudgementLaws::earlier_named, crate::proofs::JudgementLaws::earlier_passed))]
pub fn open_check(
    units: &UnitTable,
    unit: UnitNo,
    command: &Command,
    token: &[u8],
    clock: u64,
) -> Result<Unit, Reason>
    ensures reason { reason_of result ≡ open_reason (seen units.now unit.0) command.now token.now clock }
    ensures unit { IfOk result (λ u. u ≡ unit.0) }
{
    let there = earlier_check(units, unit, command)?;
    later_check(units::records_of(units, there), command, token, clock)?;
    Ok(there)
}
