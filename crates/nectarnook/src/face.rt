// The five calls for C: each takes pointers with lengths and plain numbers, makes the call and packs the answer into 64 bits. A slice is
// a pointer and then a length, an array a pointer alone. The buffers of one call must not overlap. include/nectarnook.h declares them.
ghost use Rattle.std.specs.Prelude.{◌≡◌};
ghost use Rattle.calls.specs.Build.{build_out};
ghost use Rattle.calls.specs.Slots.{abort_out, reset_out};
ghost use Rattle.calls.specs.Outcome.{lent, tables};
ghost use Rattle.calls.specs.Whole.{asked};
ghost use Rattle.calls.specs.Open.{open_out};
ghost use Rattle.calls.specs.Close.{close_out};
ghost use Rattle.nectarnook.specs.Packed.{word, packed, returned, packed_out, returned_one, packed_one};

use calls::Build;
use model::{Answer, Sense, SlotNo, UnitNo};

// The values in their places.
fn laid(answer: u8, status: u8, sense: Sense, count: u32) -> u64
    ensures { result ≡ word answer status sense.key sense.code sense.qualifier sense.reason count }
{
    answer as u64
        + status as u64 * 0x100
        + sense.key as u64 * 0x1_0000
        + sense.code as u64 * 0x100_0000
        + sense.qualifier as u64 * 0x1_0000_0000
        + sense.reason as u64 * 0x100_0000_0000
        + (count % 1024) as u64 * 0x1_0000_0000_0000
}

// The same of an answer that has no sense.
fn plain(answer: u8, status: u8, count: u32) -> u64
    ensures { result ≡ word answer status 0 0 0 0 count }
{
    let none = Sense {
        key: 0,
        code: 0,
        qualifier: 0,
        reason: 0,
    };
    laid(answer, status, none, count)
}

// The answer as a number.
fn pack(answer: Answer) -> u64
    ensures { result ≡ packed answer }
{
    match answer {
        Answer::Good(count) => plain(0x00, 0x00, count),
        Answer::Parked(slot) => plain(0x01, 0x00, slot.0),
        Answer::Run => plain(0x02, 0x00, 0),
        Answer::Check(sense) => laid(0x03, 0x02, sense, 0),
        Answer::Full => plain(0x04, 0x28, 0),
        Answer::H1 => plain(0x11, 0x00, 0),
        Answer::H2 => plain(0x12, 0x00, 0),
        Answer::H3 => plain(0x13, 0x00, 0),
        Answer::H4 => plain(0x14, 0x00, 0),
        Answer::H5 => plain(0x15, 0x00, 0),
    }
}

// Builds a unit record.
#[unsafe(no_mangle)]
pub extern "C" fn nn_build(
    units: &mut [u8],
    unit: u32,
    method: u32,
    tag: u32,
    identifier: &[u8; 16],
    auth_key: &[u8; 20],
    gen_key: &[u8; 20],
    keeper: u32,
) -> u64
    ensures { returned_one result units.new ≡ packed_one (build_out units.old unit method tag identifier.now auth_key.now gen_key.now keeper) }
{
    let build = Build {
        unit: UnitNo(unit),
        method,
        tag,
        identifier: *identifier,
        auth_key: *auth_key,
        gen_key: *gen_key,
        keeper,
    };
    pack(calls::build(units, build))
}

// Opens a command.
#[unsafe(no_mangle)]
pub extern "C" fn nn_open(
    units: &[u8],
    slots: &mut [u8],
    reply: &mut [u8],
    unit: u32,
    command: &[u8],
    token: &[u8],
    clock: u64,
) -> u64
    ensures { returned result (lent (tables units.now slots.new) reply.new) ≡ packed_out (open_out (lent (tables units.now slots.old) reply.old) (asked unit command.now token.now) clock) }
{
    let made = calls::open(units, slots, reply, UnitNo(unit), command, token, clock);
    let answer = made.answer;
    pack(answer)
}

// Closes a slot whose command's data have come.
#[unsafe(no_mangle)]
pub extern "C" fn nn_close(
    units: &mut [u8],
    slots: &mut [u8],
    reply: &[u8],
    slot: u32,
    list: &[u8],
    clock: u64,
) -> u64
    ensures { returned result (lent (tables units.new slots.new) reply.now) ≡ packed_out (close_out (lent (tables units.old slots.old) reply.now) slot list.now clock) }
{
    let made = calls::close(units, slots, reply, SlotNo(slot), list, clock);
    let answer = made.answer;
    pack(answer)
}

// Gives a parked command up.
#[unsafe(no_mangle)]
pub extern "C" fn nn_abort(slots: &mut [u8], slot: u32) -> u64
    ensures { returned_one result slots.new ≡ packed_one (abort_out slots.old slot) }
{
    pack(calls::abort(slots, SlotNo(slot)))
}

// Frees every slot.
#[unsafe(no_mangle)]
pub extern "C" fn nn_reset(slots: &mut [u8]) -> u64
    ensures { returned_one result slots.new ≡ packed_one (reset_out slots.old) }
{
    pack(calls::reset(slots))
}
