// How a parameter list is read (document 01, which names the form; docs/DECISIONS.md, D50): by a reader that holds the lent list and how far it got, and goes on from field to
// field.
ghost use Rattle.std.specs.Prelude.{◌≡◌, ◌+◌, ◌≤◌, ◌<◌, drop};
ghost use Rattle.wire.specs.Bytes.{number};

// The list that is lent, and how far the reader got.
#[derive(Clone, Copy)]
pub struct Reader<'a> {
    pub list: &'a [u8],
    pub at: usize,
}

impl<'a> Reader<'a> {
    // The reader at the list's start.
    pub fn new(list: &'a [u8]) -> Reader<'a>
        ensures { (result.list ≡ list.entry) × (result.at ≡ 0) }
    {
        Reader { list, at: 0 }
    }

    // The big-endian number in the next N bytes; the reader goes on behind them.
    pub fn next<const N: usize>(&mut self) -> u32
        requires { (self.old.at < 512) × (N ≤ 4) }
        ensures { (result ≡ number N self.old.at self.old.list.now) × (self.new.list ≡ self.old.list) × (self.new.at ≡ self.old.at + N) }
    {
        let x = wire::number::<N>(self.list, self.at) as u32;
        self.at += N;
        x
    }

    // The bytes that are left.
    pub fn rest(self) -> &'a [u8]
        ensures { result.now ≡ drop self.entry.at self.entry.list.now }
    {
        self.list.get(self.at..).unwrap_or(&[])
    }
}
