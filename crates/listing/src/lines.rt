// The lines of a listing: which call each asks for.
use super::reading::{Bytes, Fault, Words, Wrong};
use arrayvec::ArrayVec;
use model::{Build, SlotNo, UnitNo};

// The lent buffers, by name.
#[derive(Clone, Copy, Debug, PartialEq, Eq)]
pub enum Table {
    Units,
    Slots,
    Reply,
}

impl Table {
    fn len(self) -> usize {
        match self {
            Table::Units => 4096,
            Table::Slots => 8192,
            Table::Reply => 512,
        }
    }
}

// What a line asks for. Its byte strings stand in the room that it was read into.
#[derive(Clone, Copy)]
pub enum Call {
    Blank,
    Build(Build),
    Open {
        unit: UnitNo,
        clock: u64,
        command: Bytes,
        token: Bytes,
    },
    Close {
        slot: SlotNo,
        clock: u64,
        list: Bytes,
    },
    Abort(SlotNo),
    Reset,
    Poke {
        table: Table,
        at: usize,
        bytes: Bytes,
    },
    State,
    ShowUnit(UnitNo),
    ShowSlot(SlotNo),
    ShowAll,
    Explain(bool),
}

fn read_build<const N: usize>(
    words: &mut Words,
    room: &mut ArrayVec<u8, N>,
) -> Result<Call, Wrong> {
    Ok(Call::Build(Build {
        unit: UnitNo(words.small(u32::MAX)?),
        method: words.small(u32::MAX)?,
        tag: words.small(u32::MAX)?,
        identifier: words.exactly(room, Fault::IdentifierLength)?,
        auth_key: words.exactly(room, Fault::KeyLength)?,
        gen_key: words.exactly(room, Fault::KeyLength)?,
        keeper: words.keeper()?,
    }))
}

fn read_open<const N: usize>(words: &mut Words, room: &mut ArrayVec<u8, N>) -> Result<Call, Wrong> {
    Ok(Call::Open {
        unit: UnitNo(words.small(u32::MAX)?),
        clock: words.number()?,
        command: words.bytes(room)?,
        token: words.bytes(room)?,
    })
}

fn read_close<const N: usize>(
    words: &mut Words,
    room: &mut ArrayVec<u8, N>,
) -> Result<Call, Wrong> {
    Ok(Call::Close {
        slot: SlotNo(words.small(u32::MAX)?),
        clock: words.number()?,
        list: words.bytes(room)?,
    })
}

fn read_table(words: &mut Words) -> Result<Table, Wrong> {
    let word = words.next()?;
    match word.text {
        b"units" => Ok(Table::Units),
        b"slots" => Ok(Table::Slots),
        b"reply" => Ok(Table::Reply),
        _ => Err(word.wrong(Fault::UnknownWord)),
    }
}

// The bytes of a poke must end within the table.
fn read_poke<const N: usize>(words: &mut Words, room: &mut ArrayVec<u8, N>) -> Result<Call, Wrong> {
    let table = read_table(words)?;
    let at = words.small(u32::MAX)? as usize;
    let word = words.next()?;
    let bytes = word.bytes(room)?;
    let len = table.len();
    if len < at || len - at < bytes.of(room).len() {
        return Err(word.wrong(Fault::PastTheEnd));
    }
    Ok(Call::Poke { table, at, bytes })
}

fn read_show(words: &mut Words) -> Result<Call, Wrong> {
    let word = words.next()?;
    match word.text {
        b"unit" => Ok(Call::ShowUnit(UnitNo(words.small(7)?))),
        b"slot" => Ok(Call::ShowSlot(SlotNo(words.small(15)?))),
        b"all" => Ok(Call::ShowAll),
        _ => Err(word.wrong(Fault::UnknownWord)),
    }
}

fn read_explain(words: &mut Words) -> Result<Call, Wrong> {
    let word = words.next()?;
    match word.text {
        b"on" => Ok(Call::Explain(true)),
        b"off" => Ok(Call::Explain(false)),
        _ => Err(word.wrong(Fault::UnknownWord)),
    }
}

// The call whose own word comes first; the words behind it are read as it wants them.
fn read_call<const N: usize>(words: &mut Words, room: &mut ArrayVec<u8, N>) -> Result<Call, Wrong> {
    let word = words.first();
    match word.text {
        b"" => Ok(Call::Blank),
        b"build" => read_build(words, room),
        b"open" => read_open(words, room),
        b"close" => read_close(words, room),
        b"abort" => Ok(Call::Abort(SlotNo(words.small(u32::MAX)?))),
        b"reset" => Ok(Call::Reset),
        b"poke" => read_poke(words, room),
        b"state" => Ok(Call::State),
        b"show" => read_show(words),
        b"explain" => read_explain(words),
        _ => Err(word.wrong(Fault::UnknownWord)),
    }
}

// The call that the line asks for, its byte strings laid into the room: as much as half a line has room for those of any.
pub fn read<const N: usize>(line: &[u8], room: &mut ArrayVec<u8, N>) -> Result<Call, Wrong> {
    room.clear();
    let end = text::find(line, b'#').unwrap_or(line.len());
    let mut words = Words::new(&line[..end]);
    let call = read_call(&mut words, room)?;
    words.end()?;
    Ok(call)
}
