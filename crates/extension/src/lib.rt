// The extension list of the port card (document 02, K1): a command that comes as its CDB and one to four descriptors is reduced to document
// 01's wrapped form.
#![tactic(auto)]

ghost use Rattle.std.specs.Prelude.{◌≡◌, List, ◌++◌, ℕ, suc, ◌+◌, ◌≤◌, ◌<◌, length, take, drop, is_some, unwrap_or, MatchResult};
ghost use Rattle.wire.specs.Bytes.{part, patch};
ghost use Rattle.extension.specs.Extension.{wrong, carrying, one_more, list_from, reduces, reduced};
ghost use Rattle.extension.specs.Places.{carried_at};

// The list is wrong, whatever stands behind.
#[derive(Clone, Copy)]
struct Wrong;

// What a list has carried so far: nothing, or 78 bytes of the command from a place on.
type Carried = Option<usize>;

// A 40h with n bytes from `at` on: the first has 78, and there is no second.
fn carrying(before: Carried, at: usize, n: usize) -> Result<Carried, Wrong>
    ensures { (c : List ℕ) → at + n ≤ length c → carried_at c result ≡ carrying (carried_at c (Ok before)) (part at n c) }
{
    if before.is_some() || n != 78 {
        return Err(Wrong);
    }
    Ok(Some(at))
}

// One descriptor more, with n bytes from `at` on.
#[tactic(auto, unfolding(crate::specs::Extension::one_more))]
fn one_more(before: Carried, kind: u8, at: usize, n: usize) -> Result<Carried, Wrong>
    ensures { (c : List ℕ) → at + n ≤ length c → carried_at c result ≡ one_more (carried_at c (Ok before)) kind (part at n c) }
{
    match kind {
        0x40 => carrying(before, at, n),
        0x41..=0x4F => Ok(before),
        _ => Err(Wrong),
    }
}

// What is carried with the descriptor that was read, and the place behind it.
#[derive(Clone, Copy)]
struct Read {
    carried: Carried,
    next: usize,
}

// The descriptor at `at`; one that is cut off is wrong.
fn descriptor_at(c: &[u8], at: usize, before: Carried) -> Result<Read, Wrong>
    requires { at < length c.now }
    ensures { MatchResult result
        (λ r. (at < r.next) × (r.next ≤ length c.now)
        × ((n : ℕ) → list_from n (carried_at c.now (Ok r.carried)) (drop r.next c.now) ≡ list_from (suc n) (carried_at c.now (Ok before)) (drop at c.now)))
        (λ e. (n : ℕ) → wrong ≡ list_from (suc n) (carried_at c.now (Ok before)) (drop at c.now)) }
{
    let n = wire::at(c, at + 1) as usize;
    if c.len() - at < n + 2 {
        return Err(Wrong);
    }
    let body = at + 2;
    let carried = one_more(before, c[at], body, n)?;
    Ok(Read {
        carried,
        next: body + n,
    })
}

// The list from `at` on, of at most `left` descriptors: one descriptor, followed by a shorter list. It calls itself no more than `left`
// times. Document 01 names the form: recursion over the bytes that are left.
fn list_from(c: &[u8], at: usize, left: u32, before: Carried) -> Result<Carried, Wrong>
    ensures { carried_at c.now result ≡ list_from left (carried_at c.now (Ok before)) (drop at c.now) }
{
    if c.len() <= at {
        return Ok(before);
    }
    if left == 0 {
        return Err(Wrong);
    }
    let read = descriptor_at(c, at, before)?;
    list_from(c, read.next, left - 1, read.carried)
}

// Lays the CDB and the 78 bytes from `at` on into the room.
fn lay(c: &[u8], cdb: usize, at: usize, room: &mut [u8])
    requires { (cdb ≤ 16) × (cdb ≤ length c.now) × (at + 78 ≤ length c.now) × (94 ≤ length room.old) }
    ensures { room.new ≡ patch room.old 0 (take cdb c.now ++ part at 78 c.now) }
{
    wire::put(room, 0, &c[..cdb]);
    wire::put(room, cdb, &c[at..at + 78]);
}

// Reduces a command: lays its wrapped form, of up to 94 bytes, at the front of the room, and answers how many bytes it has; None, and
// nothing is laid, where it can't be reduced.
pub fn reduce(c: &[u8], room: &mut [u8]) -> Option<usize>
    requires { 94 ≤ length room.old }
    ensures some { is_some result ≡ reduces c.now }
    ensures count { unwrap_or result 0 ≡ length (reduced c.now) }
    ensures laid { room.new ≡ patch room.old 0 (reduced c.now) }
{
    let cdb = model::cdb_len(wire::at(c, 0)) as usize;
    if c.len() < cdb {
        return None;
    }
    match list_from(c, cdb, 4, None) {
        Ok(Some(at)) => {
            lay(c, cdb, at, room);
            Some(cdb + 78)
        }
        Ok(None) => None,
        Err(Wrong) => None,
    }
}
