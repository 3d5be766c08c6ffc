// The lines of an input.
ghost use Rattle.std.specs.Prelude.{◌≡◌, ◌-◌, ◌^◌, ◌<◌, ◌≤◌, false, [], Ok};
ghost use Rattle.text.specs.declared.lines.Line.TheVariants.{End};

use arrayvec::ArrayVec;
use memchr::memchr;
use std::io;
use std::io::Read;

const CHUNK: usize = 4096;

// What was found where a line was looked for: three things, none with a value, so that an Option of a Result would be no plainer.
#[derive(Clone, Copy, Debug, PartialEq, Eq)]
pub enum Line {
    Whole,
    TooLong,
    End,
}

// An input, and how far it has come: of the chunk that was read last, the bytes from `next` up to `end` are still to be taken. Nothing says
// that an input ends: so `left` counts its lines down, from a number that no run uses up, for who is to show that a loop over them does.
#[derive(Drop)]
pub struct Lines<'a, R> {
    from: &'a mut R,
    chunk: [u8; CHUNK],
    next: usize,
    end: usize,
    ended: bool,
    pub left: u64,
    ghost order: { next ≤ end },
    ghost within: { end ≤ 4096 },
}

impl<'a, R: Read> Lines<'a, R> {
    // The input, before anything was read.
    pub fn new(from: &'a mut R) -> Self
        ensures { (result.next ≡ 0) × (result.end ≡ 0) × (result.ended ≡ false) × (result.left ≡ 2 ^ 64 - 1) }
    {
        Lines {
            from,
            chunk: [0u8; CHUNK],
            next: 0,
            end: 0,
            ended: false,
            left: u64::MAX,
        }
    }

    // Takes the next line into `line`, without its newline; the last one may have none. Reads only where the chunk is used up, so that a
    // line is handed on as soon as it is there. A line that a failed read cuts off is not handed on: it may say something else than it
    // was to.
    pub fn next_line<const N: usize>(&mut self, line: &mut ArrayVec<u8, N>) -> io::Result<Line>
        ensures end { result ≡ Ok End → line.new.items ≡ [] }
        ensures progress { 0 < self.old.left → self.new.left < self.old.left }
    {
        let left = self.left.saturating_sub(1);
        let found = self.take_line(line);
        self.left = left;
        found
    }

    // A proved loop has to end, and nothing says that an input does: so it counts, to a number that no run reaches.
    fn take_line<const N: usize>(&mut self, line: &mut ArrayVec<u8, N>) -> io::Result<Line>
        ensures { result ≡ Ok End → line.new.items ≡ [] }
    {
        line.clear();
        let mut fits = true;
        for _ in 0..u64::MAX {
            if self.ended {
                break;
            }
            let rest = &self.chunk[self.next..self.end];
            let stop = memchr(b'\n', rest);
            let part = &rest[..stop.unwrap_or(rest.len())];
            fits = fits && line.try_extend_from_slice(part).is_ok();
            if let Some(stop) = stop {
                self.next += stop + 1;
                return Ok(if fits { Line::Whole } else { Line::TooLong });
            }
            self.next = 0;
            self.end = 0;
            self.end = self.from.read(&mut self.chunk)?;
            self.ended = self.end == 0;
        }
        Ok(if !fits {
            Line::TooLong
        } else if line.is_empty() {
            Line::End
        } else {
            Line::Whole
        })
    }
}
