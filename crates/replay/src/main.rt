// Replays a listing of calls: reads it from standard input, makes each call on tables of its own and prints an answer a line. At the
// start there are eight unused units, sixteen free slots and a reply of zeros. Lines of up to 4,096 bytes; listings of any length. What
// failed is said on standard error at the end.
#![tactic(auto)]

mod state;

use arrayvec::ArrayVec;
use listing::{Fault, Wrong};
use state::{State, Text};
use std::fmt::Write as _;
use std::io::{Read, Write};
use std::{fmt, io};
use text::{Line, Lines, Told, counted};

// Prints what was put together for a line, by one write, where all before it was written; some calls have nothing to print. `put` says
// whether it had room, `read` whether the line could be read.
fn print<W: Write>(to: &mut W, out: &mut Text, put: fmt::Result, read: bool, told: &mut Told) {
    if out.is_empty() {
        return;
    }
    let whole = put.is_ok() && out.write_str("\n").is_ok();
    let written = told.written && whole && to.write_all(out.as_bytes()).is_ok();
    told.count(read, written);
}

// Obeys every line of `from`, the standard input, answers to `to`, the standard output.
fn obey_all<R: Read, W: Write>(from: &mut R, to: &mut W, told: &mut Told) -> io::Result<()> {
    let mut lines = Lines::new(from);
    let mut line = ArrayVec::<u8, 4096>::new();
    let mut room = ArrayVec::<u8, 4096>::new();
    let mut out = Text::new();
    let mut state = State::new();
    let mut n = 0;
    // A proved loop has to end, and nothing says that an input does.
    for _ in 0..u64::MAX {
        let call = match lines.next_line(&mut line)? {
            Line::Whole => listing::read(text::without_return(&line), &mut room),
            Line::TooLong => Err(Wrong {
                fault: Fault::LineTooLong,
                word: None,
            }),
            Line::End => break,
        };
        n = counted(n);
        out.clear();
        let read = call.is_ok();
        let put = match call {
            Ok(call) => state.obey(&mut out, call, &room),
            Err(wrong) => write!(out, "line {n}: {wrong}"),
        };
        print(to, &mut out, put, read, told);
    }
    Ok(())
}

fn main(rt: HostRuntime) {
    let mut told = Told::new();
    let input = obey_all(&mut rt.stdin(), &mut rt.stdout(), &mut told);
    told.report(&mut rt.stderr(), b"replay", input.is_err());
}
