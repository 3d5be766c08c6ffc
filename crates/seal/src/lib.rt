// The check of a record of 512 bytes, and the blank record, whose check is a constant: nothing is hashed to find or make one.
#![tactic(auto)]

ghost use Rattle.std.specs.Prelude.{◌≡◌, ◌+◌, ◌*◌, ◌≤◌, take};
ghost use Rattle.wire.specs.Bytes.{same, part};
ghost use Rattle.fips180.specs.Sha1.{sha1};
ghost use Rattle.seal.specs.Seal.{checked, seal, blank_record};
ghost use Rattle.seal.specs.BlankLaws.{blank_check};

pub type Record = [u8; 512];

// The SHA-1 of 492 zeros.
const BLANK_CHECK: [u8; 20] = [
    0xaa, 0xc4, 0x93, 0xc3, 0xed, 0x21, 0x3d, 0x17, 0xb8, 0x3b, 0x2e, 0x8a, 0x28, 0x3b, 0xa5, 0xf4,
    0xdd, 0xf1, 0x62, 0xd4,
];

fn blank_check() -> [u8; 20]
    ensures { result ≡ blank_check }
{
    BLANK_CHECK
}

// The SHA-1 of bytes 0-491.
fn check_of(rec: &Record) -> [u8; 20]
    ensures { result ≡ sha1 (take 492 rec.now) }
{
    fips180::hash(&rec[0..492])
}

// Are bytes 492-511 the SHA-1 of bytes 0-491?
pub fn is_checked(rec: &Record) -> bool
    ensures { result ≡ checked rec.now }
{
    wire::same(&wire::array::<20>(rec, 492), &check_of(rec))
}

// Puts the check of bytes 0-491 into bytes 492-511.
pub fn seal_record(rec: &mut Record)
    ensures { rec.new ≡ seal rec.old }
{
    let made = check_of(rec);
    wire::put(rec, 492, &made);
}

// Is this the blank record? One in use is told by its check, and the rest of it is not looked at.
pub fn is_blank(rec: &Record) -> bool
    ensures { result ≡ same rec.now blank_record }
{
    wire::same(&wire::array::<20>(rec, 492), &blank_check()) && wire::are_zeros(rec, 0, 492)
}

// Makes the blank record.
pub fn make_blank(rec: &mut Record)
    ensures { rec.new ≡ blank_record }
{
    rec.fill(0);
    wire::put(rec, 492, &blank_check());
}

// The record at place i of a table of records. One to be written is lent at each place, by
// `split_at_mut` and `first_chunk_mut`: a function that lends it on was tried, and its proof did not close.
pub fn record_at<const N: usize>(table: &[u8; N], i: usize) -> &Record
    requires { i * 512 + 512 ≤ N }
    ensures { result.now ≡ part (i * 512) 512 table.now }
{
    let all = &table[..];
    let a = i * 512;
    all[a..a + 512].as_array().unwrap()
}
