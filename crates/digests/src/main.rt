// Digests on request. Each line of standard input is `hash MESSAGE` or `mac KEY MESSAGE`, in hex with `-` for none; each is
// answered by a line with the SHA-1 of the message or its HMAC-SHA1 under the key. Lines of up to 16,384 bytes. What failed is said on
// standard error at the end.
#![tactic(auto)]

use arrayvec::ArrayVec;
use std::io;
use std::io::{Read, Write};
use text::{Line, Lines, Told, word_at, word_end};

// Room for the bytes of a word. Two digits say a byte, so that those of any line that is not too long have room. A run has two, which each
// line uses again.
type Room = ArrayVec<u8, 8192>;

// The bytes that a word says, laid into the room, if it is hex.
fn bytes_of<'a>(word: &[u8], room: &'a mut Room) -> Option<&'a [u8]> {
    room.clear();
    text::unhex(word, room).ok()?;
    Some(room)
}

// The digest that a line asks for, if it is a request.
fn answer(line: &[u8], one: &mut Room, other: &mut Room) -> Option<[u8; 20]> {
    let behind_call = word_end(line, 0);
    let behind_first = word_end(line, behind_call);
    let behind_second = word_end(line, behind_first);
    let first = word_at(line, behind_call);
    let second = word_at(line, behind_first);
    let third = word_at(line, behind_second);
    match word_at(line, 0) {
        b"hash" if second.is_empty() => Some(fips180::hash(bytes_of(first, one)?)),
        b"mac" if third.is_empty() => {
            Some(hmac::hmac_of(bytes_of(first, one)?, bytes_of(second, other)?))
        }
        _ => None,
    }
}

// A line of text: was all of it written?
fn print<W: Write>(to: &mut W, words: &[u8]) -> bool {
    let written = to.write_all(words).is_ok();
    to.write_all(b"\n").is_ok() && written
}

// Answers a line, where all before it was written: was it one that could be read?
fn say<W: Write>(to: &mut W, words: &[u8], read: bool, told: &mut Told) {
    let written = told.written && print(to, words);
    told.count(read, written);
}

// Answers every line of `from`, the standard input, to `to`, the standard output.
fn answer_all<R: Read, W: Write>(from: &mut R, to: &mut W, told: &mut Told) -> io::Result<()> {
    let mut lines = Lines::new(from);
    let mut line = ArrayVec::<u8, 16384>::new();
    let mut one = Room::new();
    let mut other = Room::new();
    // A proved loop has to end, and nothing says that an input does.
    for _ in 0..u64::MAX {
        match lines.next_line(&mut line)? {
            Line::Whole => match answer(text::without_return(&line), &mut one, &mut other) {
                Some(digest) => say(to, &text::hex20(digest), true, told),
                None => say(to, b"not a request", false, told),
            },
            Line::TooLong => say(to, b"line too long", false, told),
            Line::End => break,
        }
    }
    Ok(())
}

fn main(rt: HostRuntime) {
    let mut told = Told::new();
    let input = answer_all(&mut rt.stdin(), &mut rt.stdout(), &mut told);
    told.report(&mut rt.stderr(), b"digests", input.is_err());
}
