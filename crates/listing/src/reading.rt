// The words of a line, one after another: numbers, byte strings, and what can be wrong with each.
ghost use Rattle.std.specs.Prelude.{◌≤◌, IfOk, Some};
ghost use Rattle.text.specs.Lists.{line_of};
ghost use Rattle.listing.specs.Texts.{faults, fault_line};

use arrayvec::ArrayVec;
use std::error::Error;
use std::fmt;
use text::{word_at, word_end};

// Why a line can't be read.
#[derive(Clone, Copy, Debug, PartialEq, Eq)]
pub enum Fault {
    UnknownWord,
    MissingWord,
    SurplusWord,
    NotANumber,
    NumberTooLarge,
    NotHex,
    IdentifierLength,
    KeyLength,
    PastTheEnd,
    LineTooLong,
}

impl fmt::Display for Fault {
    ghost output = { λ f. Some (line_of (fault_line f) faults) };

    #[tactic(auto, unfolding(text::specs::Lists::line_of, text::specs::Scan::index_of, crate::specs::Texts::faults))]
    fn fmt<W: fmt::Write>(&self, f: &mut fmt::Formatter<W>) -> fmt::Result {
        f.write_str(match self {
            Fault::UnknownWord => "unknown word",
            Fault::MissingWord => "missing word",
            Fault::SurplusWord => "surplus word",
            Fault::NotANumber => "not a number",
            Fault::NumberTooLarge => "number too large",
            Fault::NotHex => "not hex",
            Fault::IdentifierLength => "identifier of the wrong length",
            Fault::KeyLength => "key of the wrong length",
            Fault::PastTheEnd => "past the table's end",
            Fault::LineTooLong => "line too long",
        })
    }
}

// What is wrong with a line, and with which of its words, counted from 1; with none it is the line as a whole.
#[derive(Clone, Copy, Debug, PartialEq, Eq)]
pub struct Wrong {
    pub fault: Fault,
    pub word: Option<u32>,
}

impl fmt::Display for Wrong {
    fn fmt<W: fmt::Write>(&self, f: &mut fmt::Formatter<W>) -> fmt::Result {
        if let Some(word) = self.word {
            write!(f, "word {word}: ")?;
        }
        write!(f, "{}", self.fault)
    }
}

impl Error for Wrong {}

// A byte string of a line: where it stands in the room lent for them, in which those of a line stand one after another.
#[derive(Clone, Copy, Debug, PartialEq, Eq)]
pub struct Bytes {
    start: usize,
    end: usize,
}

impl Bytes {
    // The bytes, of the room that the line was read into; none of one that does not have them.
    pub fn of(self, room: &[u8]) -> &[u8] {
        room.get(self.start..self.end).unwrap_or(&[])
    }
}

// A word, and its number in the line.
#[derive(Clone, Copy)]
pub struct Word<'a> {
    pub text: &'a [u8],
    pub number: u32,
}

impl<'a> Word<'a> {
    pub fn wrong(self, fault: Fault) -> Wrong {
        Wrong {
            fault,
            word: Some(self.number),
        }
    }

    // The word as a number of at most `most`.
    fn number(self, most: u64) -> Result<u64, Wrong>
        ensures { IfOk result (λ n. n ≤ most) }
    {
        if !text::all_digits(self.text, 10) {
            return Err(self.wrong(Fault::NotANumber));
        }
        text::number_of(self.text, most).ok_or(self.wrong(Fault::NumberTooLarge))
    }

    // The word as a byte string, laid behind those that the room holds. What it has no room for is not read as hex.
    pub fn bytes<const N: usize>(self, room: &mut ArrayVec<u8, N>) -> Result<Bytes, Wrong> {
        let start = room.len();
        match text::unhex(self.text, room) {
            Ok(()) => Ok(Bytes {
                start,
                end: room.len(),
            }),
            Err(_) => Err(self.wrong(Fault::NotHex)),
        }
    }

    // The word as a byte string of LEN bytes; one of any other length has the fault.
    fn exactly<const LEN: usize, const N: usize>(
        self,
        room: &mut ArrayVec<u8, N>,
        otherwise: Fault,
    ) -> Result<[u8; LEN], Wrong> {
        let bytes = self.bytes(room)?;
        <[u8; LEN]>::try_from(bytes.of(room)).map_err(|_| self.wrong(otherwise))
    }
}

// How far a line has been read: where the next word is looked for, and its number.
#[derive(Clone, Copy)]
pub struct Words<'a> {
    line: &'a [u8],
    at: usize,
    number: u32,
}

impl<'a> Words<'a> {
    pub fn new(line: &'a [u8]) -> Self {
        Words {
            line,
            at: 0,
            number: 1,
        }
    }

    // The word that is next, which stays so; empty where there is none.
    fn peek(&self) -> Word<'a> {
        Word {
            text: word_at(self.line, self.at),
            number: self.number,
        }
    }

    // Takes the next word; empty where there is none.
    pub fn first(&mut self) -> Word<'a> {
        let word = self.peek();
        self.at = word_end(self.line, self.at);
        self.number = self.number.saturating_add(1);
        word
    }

    // Takes the next word, which must be there.
    pub fn next(&mut self) -> Result<Word<'a>, Wrong> {
        let word = self.first();
        if word.text.is_empty() {
            return Err(word.wrong(Fault::MissingWord));
        }
        Ok(word)
    }

    // The next word as a number.
    pub fn number(&mut self) -> Result<u64, Wrong> {
        self.next()?.number(u64::MAX)
    }

    // The next word as a number of at most `most`.
    pub fn small(&mut self, most: u32) -> Result<u32, Wrong>
        ensures { IfOk result (λ n. n ≤ most) }
    {
        Ok(self.next()?.number(u64::from(most))? as u32)
    }

    // The next word as a byte string.
    pub fn bytes<const N: usize>(&mut self, room: &mut ArrayVec<u8, N>) -> Result<Bytes, Wrong> {
        self.next()?.bytes(room)
    }

    // The next word as a byte string of LEN bytes; one of any other length has the fault.
    pub fn exactly<const LEN: usize, const N: usize>(
        &mut self,
        room: &mut ArrayVec<u8, N>,
        otherwise: Fault,
    ) -> Result<[u8; LEN], Wrong> {
        self.next()?.exactly(room, otherwise)
    }

    // Where the next word is `keeper`, the keeper field that the number behind it asks for: one more than the keeper's number. Any other
    // word is left where it stands, and the field is zero.
    pub fn keeper(&mut self) -> Result<u32, Wrong> {
        if self.peek().text != b"keeper".as_slice() {
            return Ok(0);
        }
        let _ = self.first();
        Ok(self.small(0xffff_fffe)? + 1)
    }

    // That no word is left.
    pub fn end(&self) -> Result<(), Wrong> {
        let word = self.peek();
        if word.text.is_empty() {
            return Ok(());
        }
        Err(word.wrong(Fault::SurplusWord))
    }
}
