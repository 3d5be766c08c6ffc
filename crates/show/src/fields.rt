// Values of fields, as they are shown. A field's line starts with a newline and two spaces, so that it stands under the record's first
// line.
ghost use Rattle.std.specs.Prelude.{◌≡◌, ◌<◌, MatchOption};
ghost use Rattle.text.specs.Scan.{index_of};
ghost use Rattle.text.specs.Lists.{line_of};
ghost use Rattle.show.specs.Texts.{command_codes, command_names, page_codes, page_names};

use model::KeyVersion;
use seal::Record;
use std::fmt;
use std::fmt::Write;

// What a key is shown as, the 20 bytes of rec from a on.
pub fn key_text(rec: &[u8], a: usize) -> &'static str
    requires { a < 512 }
{
    if wire::are_zeros(rec, a, 20) {
        "zero"
    } else {
        "not zero"
    }
}

// The versions whose bit the mask has, each behind a space, or `none`.
#[derive(Clone, Copy)]
pub struct Versions(pub u32);

impl fmt::Display for Versions {
    fn fmt<W: Write>(&self, f: &mut fmt::Formatter<W>) -> fmt::Result {
        if self.0 % 65536 == 0 {
            return f.write_str(" none");
        }
        for v in 0..16 {
            if units::has_bit(self.0, KeyVersion::new(v).unwrap()) {
                write!(f, " {v}")?;
            }
        }
        Ok(())
    }
}

// The versions whose key is not zero.
pub fn keys_not_zero(rec: &Record) -> Versions {
    let mut found: u32 = 0;
    for v in 0..16 {
        if !wire::are_zeros(rec, units::WORKING_KEYS + 20 * v, 20) {
            found |= 1 << v;
        }
    }
    Versions(found)
}

// The method of a unit, by its name where it has one.
#[derive(Clone, Copy)]
pub struct Method(pub u32);

impl fmt::Display for Method {
    fn fmt<W: Write>(&self, f: &mut fmt::Formatter<W>) -> fmt::Result {
        match self.0 {
            0 => f.write_str("NOSEC"),
            1 => f.write_str("CAPKEY"),
            other => write!(f, "{other}"),
        }
    }
}

// Whose keys: the field is zero, or one more than a unit's number.
#[derive(Clone, Copy)]
pub struct Keeper(pub u32);

impl fmt::Display for Keeper {
    fn fmt<W: Write>(&self, f: &mut fmt::Formatter<W>) -> fmt::Result {
        match self.0 {
            0 => f.write_str("its own"),
            field @ 1..=8 => write!(f, "unit {}", field - 1),
            field => write!(f, "{field}"),
        }
    }
}

// The name of a command that carries data out.
#[tactic(auto, unfolding(text::specs::Lists::line_of, text::specs::Scan::index_of, crate::specs::Texts::command_codes, crate::specs::Texts::command_names))]
fn command_name(code: u8) -> Option<&'static str>
    ensures { MatchOption result (index_of code command_codes ≡ 8) (λ name. name.now ≡ line_of (index_of code command_codes) command_names) }
{
    match code {
        0x0A => Some("WRITE(6)"),
        0x15 => Some("MODE SELECT(6)"),
        0x2A => Some("WRITE(10)"),
        0x2E => Some("WRITE AND VERIFY(10)"),
        0x55 => Some("MODE SELECT(10)"),
        0x8A => Some("WRITE(16)"),
        0xAA => Some("WRITE(12)"),
        0xB5 => Some("SECURITY PROTOCOL OUT"),
        _ => None,
    }
}

// A data-out command by its name, any other by its code.
#[derive(Clone, Copy)]
pub struct Command(pub u8);

impl fmt::Display for Command {
    fn fmt<W: Write>(&self, f: &mut fmt::Formatter<W>) -> fmt::Result {
        match command_name(self.0) {
            Some(name) => f.write_str(name),
            None => write!(f, "code {:02X}h", self.0),
        }
    }
}

// The name of a page of SECURITY PROTOCOL OUT, behind a space; of one that is not listed nothing.
#[tactic(auto, unfolding(text::specs::Lists::line_of, text::specs::Scan::index_of, crate::specs::Texts::page_codes, crate::specs::Texts::page_names))]
fn page_name(page: u32) -> &'static str
    ensures { result.now ≡ line_of (index_of page page_codes) page_names }
{
    match page {
        model::SET_ATTRIBUTES => " Set Attributes",
        model::SEED_EXCHANGE => " Seed Exchange",
        model::SET_KEY => " Set Key",
        model::CHANGE_MASTER => " Change Master Key",
        _ => "",
    }
}

// A page of SECURITY PROTOCOL OUT, with its name where it is listed.
#[derive(Clone, Copy)]
pub struct Page(pub u16);

impl fmt::Display for Page {
    fn fmt<W: Write>(&self, f: &mut fmt::Formatter<W>) -> fmt::Result {
        write!(f, " page {:04X}h", self.0)?;
        f.write_str(page_name(u32::from(self.0)))
    }
}
