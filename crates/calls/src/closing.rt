// Close: the data of a parked command have come; the command is judged again, done or refused, and its slot is free.
ghost use Rattle.std.specs.Prelude.{◌≡◌, true, false, eqb, length, IfOk, IfSome, is_some};
ghost use Rattle.model.specs.Reason.{reason_of};
ghost use Rattle.model.specs.Totals.{total_of};
ghost use Rattle.units.specs.Unit.{unit_state};
ghost use Rattle.units.specs.declared.UnitState.TheVariants.{Used};
ghost use Rattle.judge.specs.Command.{code_of, page_of};
ghost use Rattle.judge.specs.Seen.{seen};
ghost use Rattle.judge.specs.Judgement.{first};
ghost use Rattle.pages.specs.Out.{wrong_list};
ghost use Rattle.calls.specs.Outcome.{leaves, lent, tables, gives};
ghost use Rattle.calls.specs.Slots.{holds};
ghost use Rattle.calls.specs.Whole.{list_tests, close_reason, is_replied, made_by, passed, laid, stored, whole};
ghost use Rattle.calls.specs.Close.{held_by, close_out};
ghost use Rattle.calls.specs.Parts.{on_units};

use super::opening::Answered;
use judge::Command;
use model::{Answer, Reason, Slot, SlotNo, Unit, UnitNo};
use slots::{OpenRecord, SlotTable};
use units::UnitTable;

// 18 and 19.
#[tactic(auto, unfolding(crate::specs::Whole::list_tests))]
fn list_check(command: &Command, list: &[u8]) -> Result<(), Reason>
    ensures { reason_of result ≡ first (list_tests command.now list.now) }
{
    let facts = command.facts();
    if facts.code != model::PROTOCOL_OUT {
        return Ok(());
    }
    if list.len() != wire::number::<4>(command.bytes(), 6) as usize {
        return Err(Reason::WrongListLength);
    }
    if pages::wrong_list(facts.page, list) {
        return Err(Reason::WrongList);
    }
    Ok(())
}

// Whether a close is refused, and for which reason; the unit, where it passes. The list is looked at only where nothing earlier refuses.
#[tactic(auto, unfolding(crate::specs::Whole::close_reason, judge::specs::Judgement::open_reason), using(judge::proofs::OrderLaws::refused, judge::proofs::OrderLaws::passed, judge::proofs::JudgementLaws::open_named))]
fn close_check(
    units: &UnitTable,
    unit: UnitNo,
    command: &Command,
    token: &[u8],
    list: &[u8],
    clock: u64,
) -> Result<Unit, Reason>
    ensures reason { reason_of result ≡ close_reason (seen units.now unit.0) command.now token.now list.now clock }
    ensures unit { IfOk result (λ u. u ≡ unit.0) }
{
    let there = judge::open_check(units, unit, command, token, clock)?;
    list_check(command, list)?;
    Ok(there)
}

// Does what an Out page says, with a list that nothing is wrong with: to the unit's attributes, or to its key set, where its keeper has it.
// The clauses on the list stay, as in `set_keys`, whose contract takes page and list.
fn obey(units: &mut UnitTable, unit: Unit, page: u32, list: &[u8])
    requires { (unit_state units.old unit ≡ Used) × (length list.now ≡ total_of page) × (wrong_list page list.now ≡ false) }
    ensures { units.new ≡ laid units.old unit (made_by (seen units.old unit) page list.now) }
{
    if page == model::SET_ATTRIBUTES {
        let (_, rest) = units.split_at_mut(unit.no().0 as usize * 512);
        pages::set_attributes(rest.first_chunk_mut().unwrap(), list);
    } else {
        let keeper = units::keeper_of(units, unit);
        let (_, rest) = units.split_at_mut(keeper.no().0 as usize * 512);
        pages::set_keys(rest.first_chunk_mut().unwrap(), page, list);
    }
}

// Answers a command that passed: B5h does what its page says, any other is run by medium or crypto block.
#[tactic(auto, using(crate::proofs::CloseLaws::finishes_out, crate::proofs::CloseLaws::finishes_run))]
fn finish(units: &mut UnitTable, unit: Unit, command: &Command, list: &[u8]) -> Answer
    requires { (unit_state units.old unit ≡ Used) × (is_replied command.now ≡ false) × (eqb (code_of command.now) 0xB5 ≡ true → (length list.now ≡ total_of (page_of command.now)) × (wrong_list (page_of command.now) list.now ≡ false)) }
    ensures { leaves result units.new ≡ on_units (stored units.old unit (passed (seen units.old unit) command.now list.now)) }
{
    let facts = command.facts();
    if facts.code != model::PROTOCOL_OUT {
        return Answer::Run;
    }
    obey(units, unit, facts.page, list);
    Answer::Good(0)
}

// The command that an open slot holds, judged again.
fn judge_again(units: &mut UnitTable, held: OpenRecord, list: &[u8], clock: u64) -> Answer
    ensures { leaves result units.new ≡ on_units (whole units.old (held_by held.entry.rec.now) list.now clock) }
{
    let rec = held.rec;
    let unit = slots::unit_of(rec);
    let command = Command::new(slots::command_of(held));
    let token = slots::token_of(held);
    match close_check(units, unit, &command, token, list, clock) {
        Ok(there) => finish(units, there, &command, list),
        Err(reason) => Answer::from(reason),
    }
}

// The slot, where it holds a command.
#[tactic(auto, using(crate::proofs::CloseLaws::holds_high, crate::proofs::CloseLaws::holds_low))]
pub fn held(slots: &SlotTable, slot: SlotNo) -> Option<Slot>
    ensures held { is_some result ≡ holds slots.now slot.0 }
    ensures same { IfSome result (λ s. s ≡ slot.0) }
{
    let slot = Slot::new(slot)?;
    if slots::is_open_at(slots, slot) {
        Some(slot)
    } else {
        None
    }
}

// Closes a slot: its command's data have come.
pub fn close(
    units: &mut [u8],
    slots: &mut [u8],
    reply: &[u8],
    slot: SlotNo,
    list: &[u8],
    clock: u64,
) -> Answered
    ensures { gives result.answer (lent (tables units.new slots.new) reply.now) ≡ close_out (lent (tables units.old slots.old) reply.now) slot.0 list.now clock }
{
    let Some(units) = units.as_mut_array() else {
        return Answered { answer: Answer::H1 };
    };
    let Some(slots) = slots.as_mut_array() else {
        return Answered { answer: Answer::H1 };
    };
    if reply.len() != 512 {
        return Answered { answer: Answer::H1 };
    }
    let Some(slot) = held(slots, slot) else {
        return Answered { answer: Answer::H3 };
    };
    let rec = slots::record_of(slots, slot);
    let answer = judge_again(units, OpenRecord { rec }, list, clock);
    slots::free(slots, slot);
    Answered { answer }
}
