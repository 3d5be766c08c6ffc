// Lists of texts, for who keeps one as one text with a line for each; docs/PROMISES.md has it.
ghost use Rattle.std.specs.Prelude.{◌≡◌, ◌+◌, ◌≤◌, length, drop};
ghost use Rattle.text.specs.Scan.{index_of};
ghost use Rattle.text.specs.Lists.{line_of};

use super::find;

// What stands behind the first line: behind its newline, or nothing.
fn behind_line(list: &[u8]) -> &[u8]
    ensures { result.now ≡ drop (index_of 0x0a list.now + 1) list.now }
{
    match find(list, b'\n') {
        Some(stop) => &list[stop + 1..],
        None => &list[list.len()..],
    }
}

// The line with number k, counted from 0; empty where there is none.
pub fn line_of(list: &[u8], k: usize) -> &[u8]
    ensures { result.now ≡ line_of k list.now }
{
    let mut rest = list;
    for _ in 0..k {
        rest = behind_line(rest);
    }
    match find(rest, b'\n') {
        Some(stop) => &rest[..stop],
        None => rest,
    }
}
