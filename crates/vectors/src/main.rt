// Published vectors of SHA-1 (NIST's examples for FIPS 180-4) and HMAC-SHA1 (RFC 2202).
// A line for each: its name, what it must be, what it is, ok. Output that could not be written is said on standard error at the end.
#![tactic(auto)]

use arrayvec::ArrayVec;
use fips180::Running;
use std::io;
use std::io::Write;
use text::Told;

// A line.
fn line<W: Write>(to: &mut W, name: &str, want: &str, digest: [u8; 20]) -> io::Result<()> {
    let got = text::hex20(digest);
    let verdict = if want.as_bytes() == got.as_slice() {
        "ok"
    } else {
        "WRONG"
    };
    let mut out = ArrayVec::<u8, 128>::new();
    write!(out, "{name} {want} ")?;
    out.write_all(&got)?;
    writeln!(out, " {verdict}")?;
    to.write_all(&out)
}

// The digest of one million times a, fed a thousand at a time.
fn million() -> [u8; 20] {
    let part = [b'a'; 1000];
    let mut r = Running::new();
    for _ in 0..1000usize {
        r.feed(&part);
    }
    r.finish()
}

// 01 02 .. 19, RFC 2202's fourth key.
fn counting() -> [u8; 25] {
    let mut key = [0u8; 25];
    for (i, byte) in (1..26).zip(&mut key) {
        *byte = i;
    }
    key
}

// Were all written? One that was not stops none behind it.
fn hashes<W: Write>(to: &mut W) -> bool {
    let mut written = true;
    let long = b"abcdbcdecdefdefgefghfghighijhijkijkljklmklmnlmnomnopnopq";
    let cases = [
        (
            "sha1:abc",
            "a9993e364706816aba3e25717850c26c9cd0d89d",
            fips180::hash(b"abc"),
        ),
        (
            "sha1:448-bits",
            "84983e441c3bd26ebaae4aa1f95129e5e54670f1",
            fips180::hash(long),
        ),
        (
            "sha1:million-a",
            "34aa973cd4c4daa4f61eeb2bdbad27316534016f",
            million(),
        ),
    ];
    for (name, want, digest) in cases {
        written &= line(to, name, want, digest).is_ok();
    }
    written
}

fn macs<W: Write>(to: &mut W) -> bool {
    let mut written = true;
    let long = [0xaau8; 80];
    let first = b"Test Using Larger Than Block-Size Key - Hash Key First";
    let both = b"Test Using Larger Than Block-Size Key and Larger Than One Block-Size Data";
    let cases: [(&str, &str, &[u8], &[u8]); 7] = [
        (
            "hmac:rfc2202-1",
            "b617318655057264e28bc0b6fb378c8ef146be00",
            &[0x0bu8; 20],
            b"Hi There",
        ),
        (
            "hmac:rfc2202-2",
            "effcdf6ae5eb2fa2d27416d5f184df9c259a7c79",
            b"Jefe",
            b"what do ya want for nothing?",
        ),
        (
            "hmac:rfc2202-3",
            "125d7342b9ac11cd91a39af48aa17b4f63f175d3",
            &[0xaau8; 20],
            &[0xddu8; 50],
        ),
        (
            "hmac:rfc2202-4",
            "4c9007f4026250c6bc8414f9bf50c86c2d7235da",
            &counting(),
            &[0xcdu8; 50],
        ),
        (
            "hmac:rfc2202-5",
            "4c1a03424b55e07fe7f27be1d58bb9324a9a5a04",
            &[0x0cu8; 20],
            b"Test With Truncation",
        ),
        (
            "hmac:rfc2202-6",
            "aa4ae5e15272d00e95705637ce8a3b55ed402112",
            &long,
            first,
        ),
        (
            "hmac:rfc2202-7",
            "e8e99d0f45237d786d6bbaa7965c7808bbff1a91",
            &long,
            both,
        ),
    ];
    for (name, want, key, message) in cases {
        written &= line(to, name, want, hmac::hmac_of(key, message)).is_ok();
    }
    written
}

fn main(rt: HostRuntime) {
    let mut told = Told::new();
    let mut out = rt.stdout();
    let hashes_written = hashes(&mut out);
    let macs_written = macs(&mut out);
    told.written = hashes_written && macs_written;
    told.report(&mut rt.stderr(), b"vectors", false);
}
