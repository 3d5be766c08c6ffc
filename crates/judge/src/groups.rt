// The tests in groups: each group refuses for the first of its reasons that applies.
ghost use Rattle.std.specs.Prelude.{◌≡◌, length, IfOk};
ghost use Rattle.model.specs.Reason.{reason_of};
ghost use Rattle.model.specs.Rows.{listed};
ghost use Rattle.units.specs.Unit.{unit_state};
ghost use Rattle.judge.specs.Command.{code_of};
ghost use Rattle.judge.specs.Judgement.{first, unit_tests, code_tests, length_tests, wrong_protocol, protocol_tests, form_tests, fact_tests, page_tests};

use super::command::Command;
use super::faults::{
    is_expired, lacks_need, wrong_algorithm, wrong_descriptor, wrong_format, wrong_method,
    wrong_tag,
};
use model::{Need, Reason, Unit, UnitNo};
use seal::Record;
use units::{UnitState, UnitTable};

// 1 and 1b; the unit, where it passes. This is the one place of an open or close that checks the unit's record, and for a sharer its
// keeper's.
#[tactic(auto, unfolding(crate::specs::Judgement::unit_tests))]
pub fn unit_check(units: &UnitTable, unit: UnitNo) -> Result<Unit, Reason>
    ensures reason { reason_of result ≡ first (unit_tests unit.0 (unit_state units.now unit.0)) }
    ensures unit { IfOk result (λ u. u ≡ unit.0) }
{
    let there = Unit::new(unit).ok_or(Reason::NoUnit)?;
    match units::unit_state(units, there) {
        UnitState::Unused => Err(Reason::NoUnit),
        UnitState::Unsound => Err(Reason::UnsoundUnit),
        UnitState::Used => Ok(there),
    }
}

// A code is listed where it goes by page, or where what it needs is known.
#[tactic(auto, unfolding(crate::specs::Command::need_for), using(model::proofs::RowLaws::listed_by_need))]
fn is_listed(command: &Command) -> bool
    ensures { result ≡ listed (code_of command.now) }
{
    let facts = command.facts();
    model::by_page(facts.code) || !model::is_unknown(facts.need)
}

// 2.
#[tactic(auto, unfolding(crate::specs::Judgement::code_tests))]
pub fn code_check(command: &Command) -> Result<(), Reason>
    ensures { reason_of result ≡ first (code_tests command.now) }
{
    if command.bytes().is_empty() || !is_listed(command) {
        return Err(Reason::UnknownCode);
    }
    Ok(())
}

// 3.
#[tactic(auto, unfolding(crate::specs::Judgement::length_tests))]
pub fn length_check(command: &Command) -> Result<(), Reason>
    ensures { reason_of result ≡ first (length_tests command.now) }
{
    if model::legal_len(command.facts().code, command.bytes().len()) {
        Ok(())
    } else {
        Err(Reason::WrongLength)
    }
}

// What is wrong with an A2h or B5h before its page is looked at.
#[tactic(auto, unfolding(crate::specs::Judgement::wrong_protocol))]
fn wrong_protocol(command: &Command) -> bool
    ensures { result ≡ wrong_protocol command.now }
{
    let bytes = command.bytes();
    let protocol = wire::at(bytes, 1) != 0x07;
    let bit = wire::at(bytes, 4) / 128 % 2 == 1;
    protocol || model::is_unknown(command.facts().need) || bit
}

// 4.
#[tactic(auto, unfolding(crate::specs::Judgement::protocol_tests))]
pub fn protocol_check(command: &Command) -> Result<(), Reason>
    ensures { reason_of result ≡ first (protocol_tests command.now) }
{
    if model::by_page(command.facts().code) && wrong_protocol(command) {
        return Err(Reason::WrongProtocol);
    }
    Ok(())
}

// 7 to 9.
#[tactic(auto, unfolding(crate::specs::Judgement::form_tests, crate::specs::Descriptor::format, crate::specs::Descriptor::cap_method, crate::specs::Descriptor::algorithm))]
pub fn form_check(rules: bool, descriptor: &[u8]) -> Result<(), Reason>
    ensures { reason_of result ≡ first (form_tests rules descriptor.now) }
{
    if wrong_format(wire::at(descriptor, 0) / 16) {
        return Err(Reason::WrongFormat);
    }
    if wrong_method(rules, wire::at(descriptor, 1)) {
        return Err(Reason::WrongMethod);
    }
    if wrong_algorithm(rules, wire::number::<4>(descriptor, 2) as u32) {
        return Err(Reason::WrongAlgorithm);
    }
    Ok(())
}

// 10 to 13.
#[tactic(auto, unfolding(crate::specs::Judgement::fact_tests, crate::specs::Descriptor::expiration, crate::specs::Descriptor::permissions, crate::specs::Descriptor::cap_tag))]
pub fn fact_check(need: Need, own: &Record, descriptor: &[u8], clock: u64) -> Result<(), Reason>
    requires { length descriptor.now ≡ 58 }
    ensures { reason_of result ≡ first (fact_tests need own.now descriptor.now clock) }
{
    if is_expired(wire::number::<6>(descriptor, 6), clock) {
        return Err(Reason::Expired);
    }
    if lacks_need(need, wire::at(descriptor, 32)) {
        return Err(Reason::LacksPermission);
    }
    if wrong_tag(wire::number::<4>(descriptor, 36) as u32, units::tag_of(own)) {
        return Err(Reason::WrongTag);
    }
    if wrong_descriptor(descriptor, own) {
        return Err(Reason::WrongDescriptor);
    }
    Ok(())
}

// 16 and 17.
#[tactic(auto, unfolding(crate::specs::Judgement::page_tests))]
pub fn page_check(keys: &[u8], command: &Command) -> Result<(), Reason>
    ensures { reason_of result ≡ first (page_tests keys.now command.now) }
{
    let facts = command.facts();
    let total = wire::number::<4>(command.bytes(), 6) as u32;
    if facts.code == model::PROTOCOL_OUT && total != model::out_total(facts.page) {
        return Err(Reason::WrongTotal);
    }
    let seed = facts.code == model::PROTOCOL_IN && facts.page == model::SEED_IN;
    if seed && units::step_of(keys) == 0 {
        return Err(Reason::NoExchange);
    }
    Ok(())
}
