// What hashes of Merkle and Damgård's kind with blocks of 64 bytes share: the padded end of a message.
#![tactic(auto)]

ghost use Rattle.std.specs.Prelude.{◌≡◌, ◌∷◌, ◌++◌, ◌+◌, ◌-◌, ◌%◌, ◌≤◌, ◌<◌, length, take, replicate};
ghost use Rattle.md.specs.Padding.{zeros_for, padding};

// How many zero bytes the padding of a message of total bytes has.
pub fn zeros_for(total: u64) -> usize
    ensures { result ≡ zeros_for total }
{
    ((119 - total % 64) % 64) as usize
}

// The bytes of tail, less than a block, then the byte 80h, then zeros.
fn marked(tail: &[u8]) -> [u8; 128]
    requires { length tail.now < 64 }
    ensures { result ≡ tail.now ++ (0x80 ∷ replicate (127 - length tail.now) 0) }
{
    let mut b = [0u8; 128];
    wire::put(&mut b, 0, tail);
    b[tail.len()] = 0x80;
    b
}

// The end of a message of total bytes, in one block or two: tail, its bytes after whole blocks, and then the padding.
#[tactic(auto, using(crate::proofs::PaddingLaws::ending_fits))]
pub fn ending(tail: &[u8], total: u64) -> [u8; 128]
    requires { length tail.now ≡ total % 64 }
    ensures { take (length tail.now + (zeros_for total + 9)) result ≡ tail.now ++ padding total }
{
    let mut b = marked(tail);
    let at = tail.len() + zeros_for(total) + 1;
    let bits = total.wrapping_mul(8);
    words::store(&mut b, at, (bits / 0x1_0000_0000) as u32);
    words::store(&mut b, at + 4, (bits % 0x1_0000_0000) as u32);
    b
}
