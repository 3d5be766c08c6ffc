// What a program that reads lines says at its end, on standard error, where something failed: a program has no exit status to say it by.
// The scripts in tools/ make one of it.
ghost use Rattle.std.specs.Prelude.{◌≡◌, true, ◌+◌, ◌-◌, ◌^◌, ◌++◌, ◌==◌, ◌&&◌, Some, if◌then◌else◌, min, codes, decimal};

use std::fmt;
use std::io::Write;

// How a run over the lines of an input went, in two facts of which neither may lack: how many lines could not be read as what they are to
// be, and whether all answers were written.
#[derive(Clone, Copy)]
pub struct Told {
    pub unread: u64,
    pub written: bool,
}

// So many lines that could not be read.
#[derive(Clone, Copy)]
struct Unread(u64);

impl fmt::Display for Unread {
    ghost output = { λ n. Some (if n.0 == 1 then codes "1 line could not be read" else decimal n.0 ++ codes " lines could not be read") };

    fn fmt<W: fmt::Write>(&self, f: &mut fmt::Formatter<W>) -> fmt::Result {
        if self.0 == 1 {
            return write!(f, "1 line could not be read");
        }
        write!(f, "{} lines could not be read", self.0)
    }
}

// One more of a count that stays at its largest number.
pub fn counted(n: u64) -> u64
    ensures { result ≡ min (n + 1) (2 ^ 64 - 1) }
{
    n.saturating_add(1)
}

// A line that says it, behind the program's name. Where not even this can be written, nobody is left to be told.
fn say<W: Write, D: fmt::Display + Copy>(to: &mut W, program: &[u8], what: D) {
    let _ = to.write_all(program);
    let _ = writeln!(to, ": {what}");
}

impl Told {
    // Before any line was answered.
    pub fn new() -> Told
        ensures { (result.unread ≡ 0) × (result.written ≡ true) }
    {
        Told {
            unread: 0,
            written: true,
        }
    }

    // One line more was answered: was it one that could be read, and was the answer written?
    pub fn count(&mut self, read: bool, written: bool)
        ensures unread { self.new.unread ≡ (if read then self.old.unread else min (self.old.unread + 1) (2 ^ 64 - 1)) }
        ensures written { self.new.written ≡ (self.old.written && written) }
    {
        if !read {
            self.unread = counted(self.unread);
        }
        self.written = self.written && written;
    }

    // Says what failed to `to`, the standard error; nothing where nothing did.
    pub fn report<W: Write>(self, to: &mut W, program: &[u8], input_failed: bool) {
        if 0 < self.unread {
            say(to, program, Unread(self.unread));
        }
        if input_failed {
            say(to, program, "standard input could not be read");
        }
        if !self.written {
            say(to, program, "standard output could not be written");
        }
    }
}
