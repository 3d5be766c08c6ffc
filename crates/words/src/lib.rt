// Words of 32 bits: the operations on them that FIPS 180-4 names, and their big-endian bytes.
#![tactic(auto)]

ghost use Rattle.std.specs.Prelude.{◌≡◌, ◌+◌, ◌%◌, ◌^◌, ◌<◌, ◌≤◌, length};
ghost use Rattle.std.proofs.lemmas.List.Edits.{sets};
ghost use Rattle.words.specs.Words.{rotl, add32, xor32, ch, parity, maj, word_at, bytes32};

// x rotated left by n bits.
pub fn rotl(x: u32, n: u32) -> u32
    requires { (0 < n) × (n < 32) }
    ensures { result ≡ rotl n x }
{
    x.rotate_left(n)
}

// x + y, modulo 2^32.
pub fn add(x: u32, y: u32) -> u32
    ensures { result ≡ add32 x y }
{
    x.wrapping_add(y)
}

// By three operations in the place of four; Maj by four in the place of five.
pub fn ch(x: u32, y: u32, z: u32) -> u32
    ensures { result ≡ ch x y z }
{
    z ^ (x & (y ^ z))
}

pub fn parity(x: u32, y: u32, z: u32) -> u32
    ensures { result ≡ parity x y z }
{
    x ^ y ^ z
}

pub fn maj(x: u32, y: u32, z: u32) -> u32
    ensures { result ≡ maj x y z }
{
    (x & y) ^ (z & (x ^ y))
}

// v ⊕ x ⊕ y ⊕ z, as a message schedule mixes four words.
pub fn xor4(v: u32, x: u32, y: u32, z: u32) -> u32
    ensures { result ≡ xor32 (xor32 (xor32 v x) y) z }
{
    v ^ x ^ y ^ z
}

// The big-endian word at index i of s.
pub fn load(s: &[u8], i: usize) -> u32
    requires { i + 3 < length s.now }
    ensures { result ≡ word_at s.now i }
{
    u32::from_be_bytes([s[i], s[i + 1], s[i + 2], s[i + 3]])
}

// Stores the big-endian bytes of x from index i on.
pub fn store(s: &mut [u8], i: usize, x: u32)
    requires { i + 3 < length s.old }
    ensures { s.new ≡ sets s.old i (bytes32 x) }
{
    s[i..i + 4].copy_from_slice(&x.to_be_bytes());
}
