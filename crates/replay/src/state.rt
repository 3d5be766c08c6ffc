// What a run keeps from line to line, and what each call does to it.
use arrayvec::ArrayString;
use listing::{Call, Table};
use model::Answer;
use std::fmt;

// What an answer is put together in: room for the longest, `show all` with every record damaged.
pub type Text = ArrayString<8192>;

// The tables and the reply, and whether the reasons' words are asked for.
#[derive(Clone, Copy)]
pub struct State {
    units: [u8; 4096],
    slots: [u8; 8192],
    reply: [u8; 512],
    explain: bool,
}

// Makes every record of a table blank: an unused unit, a free slot.
fn make_fresh(table: &mut [u8]) {
    let (records, _) = table.as_chunks_mut::<512>();
    for record in records {
        seal::make_blank(record);
    }
}

// Puts the bytes into a table, where they end within it.
fn damage(table: &mut [u8], at: usize, bytes: &[u8]) {
    if let Some(rest) = table.get_mut(at..) {
        if let Some(place) = rest.get_mut(..bytes.len()) {
            place.copy_from_slice(bytes);
        }
    }
}

impl State {
    pub fn new() -> State {
        let mut state = State {
            units: [0u8; 4096],
            slots: [0u8; 8192],
            reply: [0u8; 512],
            explain: false,
        };
        make_fresh(&mut state.units);
        make_fresh(&mut state.slots);
        state
    }

    fn poke(&mut self, table: Table, at: usize, bytes: &[u8]) {
        match table {
            Table::Units => damage(&mut self.units, at, bytes),
            Table::Slots => damage(&mut self.slots, at, bytes),
            Table::Reply => damage(&mut self.reply, at, bytes),
        }
    }

    // The answer of a call, with what it wrote to the reply.
    fn answered(&self, out: &mut Text, answer: Answer) -> fmt::Result {
        listing::answer_text(out, answer, &self.reply, self.explain)
    }

    // Does what a line asks for, its byte strings in the room, and puts what is printed for it, which for some is nothing.
    pub fn obey(&mut self, out: &mut Text, call: Call, room: &[u8]) -> fmt::Result {
        match call {
            Call::Blank => Ok(()),
            Call::Build(build) => {
                let answer = calls::build(&mut self.units, build);
                self.answered(out, answer)
            }
            Call::Open {
                unit,
                clock,
                command,
                token,
            } => {
                let made = calls::open(
                    &self.units,
                    &mut self.slots,
                    &mut self.reply,
                    unit,
                    command.of(room),
                    token.of(room),
                    clock,
                );
                self.answered(out, made.answer)
            }
            Call::Close { slot, clock, list } => {
                let made = calls::close(
                    &mut self.units,
                    &mut self.slots,
                    &self.reply,
                    slot,
                    list.of(room),
                    clock,
                );
                self.answered(out, made.answer)
            }
            Call::Abort(slot) => {
                let answer = calls::abort(&mut self.slots, slot);
                self.answered(out, answer)
            }
            Call::Reset => {
                let answer = calls::reset(&mut self.slots);
                self.answered(out, answer)
            }
            Call::Poke { table, at, bytes } => {
                self.poke(table, at, bytes.of(room));
                Ok(())
            }
            Call::State => listing::state_text(out, &self.units, &self.slots, &self.reply),
            Call::ShowUnit(unit) => show::put_unit(out, &self.units, unit),
            Call::ShowSlot(slot) => show::put_slot(out, &self.slots, slot),
            Call::ShowAll => show::put_all(out, &self.units, &self.slots),
            Call::Explain(on) => {
                self.explain = on;
                Ok(())
            }
        }
    }
}
