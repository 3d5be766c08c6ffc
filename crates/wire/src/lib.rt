// Bytes in lent lists: total reads, big-endian numbers, zeros, equality, and one write.
#![tactic(auto)]

ghost use Rattle.std.specs.Prelude.{◌≡◌, ◌+◌, ◌^◌, ◌≤◌, ◌<◌, length, get_or};
ghost use Rattle.wire.specs.Bytes.{same, part, number, bytes_of, zeros, patch};

// Are the two the same? The loop looks at all the bytes that both have: it has no way out but its end, whatever they hold. What the
// compiler makes of it, and so what the time taken tells, is not proved.
pub fn same(s: &[u8], t: &[u8]) -> bool
    ensures { result ≡ same s.now t.now }
{
    let mut different: u8 = 0;
    for (x, y) in s.iter().zip(t) {
        different |= *x ^ *y;
    }
    s.len() == t.len() && different == 0
}

// The byte at i, and 0 past the end.
pub fn at(s: &[u8], i: usize) -> u8
    ensures { result ≡ get_or s.now i 0 }
{
    s.get(i).copied().unwrap_or(0)
}

// The big-endian number in the N bytes from a on.
pub fn number<const N: usize>(s: &[u8], a: usize) -> u64
    requires place { a < 65536 }
    requires width { N ≤ 8 }
    ensures value { result ≡ number N a s.now }
    ensures fits { result < 256 ^ N }
{
    let mut value: u64 = 0;
    for i in 0..N {
        value = value * 256 + at(s, a + i) as u64;
    }
    value
}

// Are the n bytes from a on zero? Past the list's end they are. The others are all looked at, so that the compiler can take many at once.
pub fn are_zeros(s: &[u8], a: usize, n: usize) -> bool
    requires { (a < 65536) × (n < 65536) }
    ensures { result ≡ zeros n a s.now }
{
    let end = (a + n).min(s.len());
    let mut any: u8 = 0;
    for x in &s[a.min(end)..end] {
        any |= *x;
    }
    any == 0
}

// The N bytes from a on.
pub fn array<const N: usize>(s: &[u8], a: usize) -> [u8; N]
    requires { a + N ≤ length s.now }
    ensures { result ≡ part a N s.now }
{
    let mut r = [0u8; N];
    r.copy_from_slice(&s[a..a + N]);
    r
}

// The N big-endian bytes of x.
pub fn bytes_of<const N: usize>(x: u32) -> [u8; N]
    requires { N ≤ 4 }
    ensures { result ≡ bytes_of N x }
{
    array(&x.to_be_bytes(), 4 - N)
}

// Stores the bytes of s from a on. Byte by byte, which the compiler makes a copy of: `copy_from_slice` would want memmove of the platform,
// and the C header promises that memcpy and memset are enough.
pub fn put(d: &mut [u8], a: usize, s: &[u8])
    requires { a + length s.now ≤ length d.old }
    ensures { d.new ≡ patch d.old a s.now }
{
    for i in 0..s.len() {
        d[a + i] = s[i];
    }
}
