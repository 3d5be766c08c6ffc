// Bytes as hex digits, and hex digits as bytes.
ghost use Rattle.std.specs.Prelude.{◌≡◌, true, false, ◌+◌, ◌/◌, ◌<◌, ◌≤◌, ◌↔◌, ◌++◌, length, IsOk, OnOk, OnErr, IsErrOf};
ghost use Rattle.wire.specs.Bytes.{patch};
ghost use Rattle.arrayvec.specs.ArrayString.{array_string_len};
ghost use Rattle.arrayvec.specs.ArrayVec.{array_vec_len};
ghost use Rattle.text.specs.Hex.{two_digits, digits_of, hex_text, all_digits, bytes_in, is_dash, are_pairs, is_hex, hex_bytes};
ghost use Rattle.text.specs.Hex.{value as Hex·value, digit as Hex·digit};

use arrayvec::{ArrayString, ArrayVec};
use std::error::Error;
use std::fmt;
use std::fmt::Write;

// The hex digit of a number below 16. `ten` is the letter for ten, in the case that is wanted.
pub fn digit(x: u8, ten: u8) -> u8
    requires { (x < 16) × (ten < 128) }
    ensures { result ≡ Hex·digit ten x }
{
    if x < 10 { x + 48 } else { x - 10 + ten }
}

// The two hex digits of b.
pub fn two_digits(b: u8, ten: u8) -> [u8; 2]
    requires { ten < 128 }
    ensures { result ≡ two_digits ten b }
{
    let high = digit(b / 16, ten);
    let low = digit(b % 16, ten);
    [high, low]
}

// Puts the two digits of b behind the text, which has room for them.
fn push_digits<const N: usize>(out: &mut ArrayString<N>, b: u8)
    requires { array_string_len out.old + 2 ≤ N }
    ensures { out.new.bytes ≡ out.old.bytes ++ two_digits 0x61 b }
{
    let [high, low] = two_digits(b, b'a');
    out.push(char::from(high));
    out.push(char::from(low));
}

// Puts the bytes of s as hex digits in lower case behind the text, `-` for none. Where it has no room for all of them it stays as it is.
pub fn put_hex<const N: usize>(out: &mut ArrayString<N>, s: &[u8]) -> fmt::Result
    ensures room { IsOk result ↔ (array_string_len out.old + length (hex_text s.now) ≤ N) }
    ensures ok { OnOk result (out.new.bytes ≡ out.old.bytes ++ hex_text s.now) }
    ensures err { OnErr result (out.new ≡ out.old) }
{
    if s.is_empty() {
        return out.write_str("-");
    }
    if out.remaining_capacity() / 2 < s.len() {
        return Err(fmt::Error);
    }
    for &b in s {
        push_digits(out, b);
    }
    Ok(())
}

// The 40 hex digits of 20 bytes.
pub fn hex20(d: [u8; 20]) -> [u8; 40]
    ensures { result ≡ digits_of 20 d }
{
    let mut text = [0u8; 40];
    for (i, &b) in d.iter().enumerate() {
        wire::put(&mut text, 2 * i, &two_digits(b, b'a'));
    }
    text
}

// The value of a hex digit in either case, or 16: no Option, since of other bytes too `all_digits` and `number_of` promise what they
// answer, by this 16.
pub fn value(c: u8) -> u8
    ensures { result ≡ Hex·value c }
{
    match c {
        48..=57 => c - 48,
        65..=70 => c - 55,
        97..=102 => c - 87,
        _ => 16,
    }
}

// Do all bytes of s say a value below base? All are looked at, so that the compiler can take many at once.
pub fn all_digits(s: &[u8], base: u8) -> bool
    ensures { result ≡ all_digits base (length s.now) s.now }
{
    let mut all = true;
    for &c in s {
        all &= value(c) < base;
    }
    all
}

// Is s `-` alone?
fn is_dash(s: &[u8]) -> bool
    ensures { result ≡ is_dash s.now }
{
    s.len() == 1 && s[0] == b'-'
}

// Does s hold a pair of digits, or more?
fn are_pairs(s: &[u8]) -> bool
    ensures { result ≡ are_pairs s.now }
{
    !s.is_empty() && s.len() % 2 == 0 && all_digits(s, 16)
}

// Why no bytes were read.
#[derive(Clone, Copy, Debug, PartialEq, Eq)]
pub enum HexError {
    NotHex,
    NoRoom,
}

impl fmt::Display for HexError {
    fn fmt<W: Write>(&self, f: &mut fmt::Formatter<W>) -> fmt::Result {
        f.write_str(match self {
            HexError::NotHex => "not hex",
            HexError::NoRoom => "no room for the bytes",
        })
    }
}

impl Error for HexError {}

// Puts the bytes of s's pairs of digits behind those of out, which has room for them. Pair by pair by its number, as `bytes_in` has them:
// the digits stand in s two by two, and a chunk of it would have no digit's place.
fn push_pairs<const N: usize>(s: &[u8], out: &mut ArrayVec<u8, N>)
    requires digits { all_digits 16 (length s.now) s.now ≡ true }
    requires room { array_vec_len out.old + length s.now / 2 ≤ N }
    ensures { out.new.items ≡ out.old.items ++ bytes_in (length s.now / 2) s.now }
{
    for i in 0..s.len() / 2 {
        out.push(value(s[2 * i]) * 16 + value(s[2 * i + 1]));
    }
}

// Puts the bytes that s says in hex behind those of out; `-` stands for none. On an error out stays as it is.
pub fn unhex<const N: usize>(s: &[u8], out: &mut ArrayVec<u8, N>) -> Result<(), HexError>
    ensures not_hex { IsErrOf result HexError.NotHex ↔ (is_hex s.now ≡ false) }
    ensures room { IsOk result ↔ (is_hex s.now ≡ true) × (array_vec_len out.old + length (hex_bytes s.now) ≤ N) }
    ensures ok { OnOk result (out.new.items ≡ out.old.items ++ hex_bytes s.now) }
    ensures err { OnErr result (out.new ≡ out.old) }
{
    let room = out.remaining_capacity();
    if is_dash(s) {
        return Ok(());
    }
    if !are_pairs(s) {
        return Err(HexError::NotHex);
    }
    if room < s.len() / 2 {
        return Err(HexError::NoRoom);
    }
    push_pairs(s, out);
    Ok(())
}
