// SHA-1 (FIPS 180-4) over lent bytes: a running state that takes parts one after another, and the digest.
#![tactic(auto)]

mod block;

ghost use Rattle.std.specs.Prelude.{◌≡◌, List, [], ℕ, ◌/◌, ◌%◌, length};
ghost use Rattle.md.specs.Chain.{absorb, Taken};
ghost use Rattle.md.specs.Parts.{Takes};
ghost use Rattle.fips180.specs.Sha1.{initial, compressed, digest_of, sha1};
ghost use Rattle.fips180.specs.Running.{Holds, Continued};

pub use block::State;

// A hash that has taken in a message so far: the bytes after its whole blocks, its length, and the state after its whole blocks.
#[derive(Clone, Copy)]
pub struct Running {
    pub buffer: [u8; 64],
    pub total: u64,
    pub state: State,
}

// The hash value after the whole blocks of m.
fn whole_blocks(h: State, m: &[u8]) -> State
    ensures { result ≡ absorb compressed (length m.now / 64) h m.now }
{
    let mut v = h;
    let (blocks, _) = m.as_chunks::<64>();
    for block in blocks {
        v = block::compress(v, block);
    }
    v
}

impl Running {
    // A hash that has taken in nothing.
    pub fn new() -> Running
        ensures { Holds result [] }
    {
        Running {
            state: State {
                a: 0x6745_2301,
                b: 0xefcd_ab89,
                c: 0x98ba_dcfe,
                d: 0x1032_5476,
                e: 0xc3d2_e1f0,
            },
            buffer: [0u8; 64],
            total: 0,
        }
    }

    // With an empty buffer: whole blocks are taken from where they lie, and what is left goes into the buffer.
    fn from_boundary(&mut self, part: &[u8])
        ensures { Continued self.old.state part.now self.old.total self.new }
    {
        self.state = whole_blocks(self.state, part);
        let done = part.len() / 64 * 64;
        wire::put(&mut self.buffer, 0, &part[done..]);
    }

    // Takes in one part more. Every digest goes through here (document 01 names the form; docs/DECISIONS.md, D43).
    pub fn feed(&mut self, part: &[u8])
        ensures { Takes Holds self.old part.now self.new }
    {
        let fill = (self.total % 64) as usize;
        self.total = self.total.wrapping_add(part.len() as u64);
        if fill == 0 {
            self.from_boundary(part);
            return;
        }
        let room = 64 - fill;
        if part.len() < room {
            wire::put(&mut self.buffer, fill, part);
            return;
        }
        wire::put(&mut self.buffer, fill, &part[..room]);
        self.state = whole_blocks(self.state, &self.buffer);
        self.from_boundary(&part[room..]);
    }

    // The digest of what was taken in.
    pub fn finish(&self) -> [u8; 20]
        ensures { (m : List ℕ) → Holds self.now m → result ≡ sha1 m }
    {
        let fill = (self.total % 64) as usize;
        last(self.state, &self.buffer[..fill], self.total)
    }
}

fn digest(h: State) -> [u8; 20]
    ensures { result ≡ digest_of h }
{
    let mut d = [0u8; 20];
    words::store(&mut d, 0, h.a);
    words::store(&mut d, 4, h.b);
    words::store(&mut d, 8, h.c);
    words::store(&mut d, 12, h.d);
    words::store(&mut d, 16, h.e);
    d
}

// The digest of a message of total bytes whose whole blocks took the hash value to h, and whose other bytes are tail.
#[tactic(auto, using(md::proofs::PaddingLaws::ending_fits))]
fn last(h: State, tail: &[u8], total: u64) -> [u8; 20]
    requires { length tail.now ≡ total % 64 }
    ensures { (m : List ℕ) → Taken compressed initial h tail.now total m → result ≡ sha1 m }
{
    let b = md::ending(tail, total);
    let n = tail.len() + (md::zeros_for(total) + 9);
    digest(whole_blocks(h, &b[..n]))
}

// The digest of a message.
pub fn hash(m: &[u8]) -> [u8; 20]
    ensures { result ≡ sha1 m.now }
{
    let mut r = Running::new();
    r.feed(m);
    r.finish()
}
