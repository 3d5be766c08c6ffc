// What is printed for a line: the text of answers and digests, put behind what stands in `out`.
ghost use Rattle.std.specs.Prelude.{◌≡◌};
ghost use Rattle.text.specs.Lists.{line_of};
ghost use Rattle.listing.specs.Texts.{reason_words, plain_line, plain_answers};

use arrayvec::ArrayString;
use model::{Answer, Sense};
use std::fmt;
use std::fmt::Write;
use text::put_hex;

// The words of a reason, as docs/MANUAL.md has them, by its number, as a sense has it; of a number that is no reason there are none.
#[tactic(auto, unfolding(text::specs::Lists::line_of, text::specs::Scan::index_of, crate::specs::Texts::reasons, crate::specs::Texts::reason_numbers))]
fn reason_words(reason: u8) -> &'static str
    ensures { result.now ≡ reason_words reason }
{
    match reason {
        1 => "the unit is above 7, or its record sound and unused",
        0x1b => {
            "the unit's record is unsound: damaged; or it shares keys, and its keeper's record is unsound, unused or itself a sharer's"
        }
        2 => "the command is empty or its code unknown",
        3 => "its length is neither the CDB's nor 78 bytes more",
        4 =>
            "A2h, B5h: protocol byte 1 not 07h, page in bytes 2-3 unlisted, or bit 7 of byte 4 set",
        6 => "no capability, and the unit is CAPKEY or the command wants a master key",
        7 => "capability: format not 1h",
        8 => "capability: method not CAPKEY where CAPKEY rules, else above 1",
        9 => "capability: algorithm not 1, where CAPKEY rules",
        10 => "capability: expiration not zero and below the clock",
        11 => "capability: a needed permission bit of byte 32 is missing",
        12 => "capability: policy tag not zero and not the unit's",
        13 => "capability: type not 1h, length not 16, or identifier not the unit's",
        14 => {
            "no such key: the version has no valid key, a master command names another version than 0, \
            or Change comes with no seed exchange pending"
        }
        15 => "the integrity check value differs",
        16 => "B5h: bytes 6-9 are not the page's total",
        17 => "IN page 0012h with no seed exchange pending in the unit's key set",
        18 => "B5h: the data are not as long as bytes 6-9 say",
        19 => "B5h: page code, page length, a field or a named zero of the data is wrong",
        _ => "",
    }
}

// CHECK CONDITION: sense key, additional code and qualifier, the reason, in decimal or `1b`, and where they are asked for its words.
fn check_text<const N: usize>(
    out: &mut ArrayString<N>,
    sense: Sense,
    explain: bool,
) -> fmt::Result {
    write!(
        out,
        "A3 02 {:X}/{:02X}/{:02X} ",
        sense.key % 16,
        sense.code,
        sense.qualifier
    )?;
    match sense.reason {
        0x1b => out.write_str("1b")?,
        reason => write!(out, "{reason}")?,
    }
    if explain {
        write!(out, ": {}", reason_words(sense.reason))?;
    }
    Ok(())
}

// An answer that has no values: its number, and its status where it has one. Of one that has values there is no such text.
#[tactic(auto, unfolding(text::specs::Lists::line_of, text::specs::Scan::index_of, crate::specs::Texts::plain_answers))]
fn plain_text(answer: Answer) -> &'static str
    ensures { result.now ≡ line_of (plain_line answer) plain_answers }
{
    match answer {
        Answer::Run => "A2 00",
        Answer::Full => "A4 28",
        Answer::H1 => "H1",
        Answer::H2 => "H2",
        Answer::H3 => "H3",
        Answer::H4 => "H4",
        Answer::H5 => "H5",
        Answer::Good(_) | Answer::Parked(_) | Answer::Check(_) => "",
    }
}

// The answer of a call: document 01's number and values, and for A0 the bytes that it wrote to the reply. With `explain` an A3 has its
// reason's words behind it.
pub fn answer_text<const N: usize>(
    out: &mut ArrayString<N>,
    answer: Answer,
    reply: &[u8],
    explain: bool,
) -> fmt::Result {
    match answer {
        Answer::Good(count) => {
            write!(out, "A0 00 {count} ")?;
            put_hex(out, &reply[..reply.len().min(count as usize)])
        }
        Answer::Parked(slot) => write!(out, "A1 {}", slot.0),
        Answer::Check(sense) => check_text(out, sense, explain),
        answer => out.write_str(plain_text(answer)),
    }
}

// The digests of the three buffers.
pub fn state_text<const N: usize>(
    out: &mut ArrayString<N>,
    units: &[u8],
    slots: &[u8],
    reply: &[u8],
) -> fmt::Result {
    out.write_str("state")?;
    for buffer in [units, slots, reply] {
        out.write_str(" ")?;
        put_hex(out, &fips180::hash(buffer))?;
    }
    Ok(())
}
