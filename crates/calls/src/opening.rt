// Open: a command is judged, and then run by medium or crypto block, replied here, or parked until its data come.
ghost use Rattle.std.specs.Prelude.{◌≡◌, false, [], ◌≤◌, eqb, length};
ghost use Rattle.units.specs.Unit.{unit_state};
ghost use Rattle.units.specs.declared.UnitState.TheVariants.{Used};
ghost use Rattle.slots.specs.Slot.{lowest_free};
ghost use Rattle.judge.specs.Command.{code_of};
ghost use Rattle.judge.specs.Seen.{seen};
ghost use Rattle.calls.specs.Outcome.{leaves, lent, tables, gives};
ghost use Rattle.calls.specs.Whole.{asked, is_replied, passed};
ghost use Rattle.calls.specs.Open.{parked_in, judged_out, open_out};
ghost use Rattle.calls.specs.Parts.{on_reply};

use judge::Command;
use model::{Answer, Unit, UnitNo};
use seal::Record;
use slots::SlotTable;
use units::{Records, UnitTable};

// The answer of an open or a close: a struct, so that what may come to go with it changes no caller (docs/DECISIONS.md, D25).
#[derive(Clone, Copy)]
pub struct Answered {
    pub answer: Answer,
}

// Parks a command in the lowest sound free slot, if there is one. (On its lengths, see `slots::park`.)
fn park(slots: &mut SlotTable, unit: UnitNo, command: &[u8], token: &[u8]) -> Answer
    requires { (length command.now ≤ 100) × (length token.now ≤ 64) }
    ensures { leaves result slots.new ≡ parked_in slots.old (asked unit.0 command.now token.now) (lowest_free slots.old) }
{
    let Some(slot) = slots::lowest_free(slots) else {
        return Answer::Full;
    };
    slots::park(slots, slot, unit, command, token);
    Answer::Parked(slot.no())
}

// Is it a page that is replied here?
#[tactic(auto, unfolding(crate::specs::Whole::is_replied))]
fn is_replied(command: &Command) -> bool
    ensures { result ≡ is_replied command.now }
{
    let facts = command.facts();
    facts.code == model::PROTOCOL_IN && facts.page != model::SEED_IN
}

// Answers a command that passed and carries no data out: a page is replied here, the rest is run elsewhere.
fn answer(reply: &mut Record, units: &UnitTable, unit: Unit, command: &Command) -> Answer
    requires { (unit_state units.now unit ≡ Used) × (eqb (code_of command.now) 0xB5 ≡ false) }
    ensures { leaves result reply.new ≡ on_reply reply.old (passed (seen units.now unit) command.now []) }
{
    if !is_replied(command) {
        return Answer::Run;
    }
    let page = command.facts().page;
    let allocation = wire::number::<4>(command.bytes(), 6) as u32;
    let Records { own, keys } = units::records_of(units, unit);
    Answer::Good(pages::reply(reply, page, allocation, own, keys))
}

// An open with the right lengths.
fn judge_and_answer(
    units: &UnitTable,
    slots: &mut SlotTable,
    reply: &mut Record,
    unit: UnitNo,
    command: &Command,
    token: &[u8],
    clock: u64,
) -> Answer
    requires { length token.now ≤ 64 }
    ensures { gives result (lent (tables units.now slots.new) reply.new) ≡ judged_out (lent (tables units.now slots.old) reply.old) (asked unit.0 command.now token.now) clock }
{
    match judge::open_check(units, unit, command, token, clock) {
        Err(reason) => Answer::from(reason),
        Ok(there) => {
            if model::data_out(command.facts().code) {
                park(slots, unit, command.bytes(), token)
            } else {
                answer(reply, units, there, command)
            }
        }
    }
}

// Opens a command at a unit.
pub fn open(
    units: &[u8],
    slots: &mut [u8],
    reply: &mut [u8],
    unit: UnitNo,
    command: &[u8],
    token: &[u8],
    clock: u64,
) -> Answered
    ensures { gives result.answer (lent (tables units.now slots.new) reply.new) ≡ open_out (lent (tables units.now slots.old) reply.old) (asked unit.0 command.now token.now) clock }
{
    let Some(units) = units.as_array() else {
        return Answered { answer: Answer::H1 };
    };
    let Some(slots) = slots.as_mut_array() else {
        return Answered { answer: Answer::H1 };
    };
    let Some(reply) = reply.as_mut_array() else {
        return Answered { answer: Answer::H1 };
    };
    if !slots::right_token(token.len()) {
        return Answered { answer: Answer::H2 };
    }
    let command = Command::new(command);
    let answer = judge_and_answer(units, slots, reply, unit, &command, token, clock);
    Answered { answer }
}
