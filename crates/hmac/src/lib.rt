// HMAC (RFC 2104) with SHA-1: a running state that takes parts one after another, and one call for a whole message.
#![tactic(auto)]

ghost use Rattle.std.specs.Prelude.{◌≡◌, List, [], ℕ, ◌≤◌, length};
ghost use Rattle.md.specs.Parts.{Takes};
ghost use Rattle.hmac.specs.Hmac.{extended, masked, key_block, hmac, by_sha1};
ghost use Rattle.hmac.specs.Mac.{MacHolds};

use fips180::Running;

// An HMAC under a key that has taken in a message so far: the hashes of the inner and of the outer pass.
#[derive(Clone, Copy)]
pub struct Mac {
    pub inner: Running,
    pub outer: Running,
}

// A key of at most a block, with zeros after it.
fn extend(key: &[u8]) -> [u8; 64]
    requires { length key.now ≤ 64 }
    ensures { result ≡ extended 64 key.now }
{
    let mut block = [0u8; 64];
    wire::put(&mut block, 0, key);
    block
}

// The key as a block: a longer one is hashed first.
fn key_block(key: &[u8]) -> [u8; 64]
    ensures { result ≡ key_block by_sha1 key.now }
{
    if key.len() <= 64 {
        return extend(key);
    }
    extend(&fips180::hash(key))
}

// Each byte of the block with pad xored in.
fn mask(mut block: [u8; 64], pad: u8) -> [u8; 64]
    ensures { result ≡ masked pad block }
{
    for b in block.iter_mut() {
        *b ^= pad;
    }
    block
}

impl Mac {
    // An HMAC under the key that has taken in nothing.
    pub fn new(key: &[u8]) -> Mac
        ensures { MacHolds key.now result [] }
    {
        let block = key_block(key);
        let mut inner = Running::new();
        inner.feed(&mask(block, 0x36));
        let mut outer = Running::new();
        outer.feed(&mask(block, 0x5c));
        Mac { inner, outer }
    }

    // Takes in one part more.
    pub fn feed(&mut self, part: &[u8])
        ensures { (k : List ℕ) → Takes (MacHolds k) self.old part.now self.new }
    {
        self.inner.feed(part);
    }

    // The HMAC of what was taken in.
    pub fn finish(&self) -> [u8; 20]
        ensures { (k m : List ℕ) → MacHolds k self.now m → result ≡ hmac by_sha1 k m }
    {
        let mut outer = self.outer;
        outer.feed(&self.inner.finish());
        outer.finish()
    }
}

// The HMAC of a message under a key.
pub fn hmac_of(key: &[u8], m: &[u8]) -> [u8; 20]
    ensures { result ≡ hmac by_sha1 key.now m.now }
{
    let mut mac = Mac::new(key);
    mac.feed(m);
    mac.finish()
}
