// The In pages, to the byte, and the one cut of a reply.
ghost use Rattle.std.specs.Prelude.{◌≡◌, ◌≤◌, length, take};
ghost use Rattle.wire.specs.Bytes.{patch};
ghost use Rattle.pages.specs.In.{attributes_page, controlled_page, reply_of};

use seal::Record;

// The pages that IN has, under 0000h.
const SUPPORTED_IN: [u8; 16] = [
    0x00, 0x00, 0x00, 0x0C, 0x00, 0x00, 0x00, 0x01, 0x00, 0x10, 0x00, 0x11, 0x00, 0x12, 0x00, 0x13,
];

// The pages that OUT has, under 0001h.
const SUPPORTED_OUT: [u8; 12] = [
    0x00, 0x01, 0x00, 0x08, 0x00, 0x11, 0x00, 0x12, 0x00, 0x14, 0x00, 0x15,
];

// 0010h.
const CAPABILITIES: [u8; 20] = [
    0x00, 0x10, 0x00, 0x10, 0xD0, 0x00, 0x00, 0x02, 0x00, 0x00, 0x00, 0x01, 0x00, 0x01, 0x00, 0x01,
    0x00, 0x01, 0x00, 0x0E,
];

// The head of 0011h: code and length.
const ATTRIBUTES_HEAD: [u8; 4] = [0x00, 0x11, 0x00, 0x08];

// The head of 0013h: code and length.
const CONTROLLED_HEAD: [u8; 4] = [0x00, 0x13, 0x00, 0xBA];

// 0011h, of the unit's record and that of its key set.
fn attributes_page(own: &[u8], keys: &[u8]) -> [u8; 12]
    ensures { result ≡ attributes_page own.now keys.now }
{
    let mut page = [0; 12];
    wire::put(&mut page, 0, &ATTRIBUTES_HEAD);
    wire::put(&mut page, 4, &wire::bytes_of::<2>(units::method_of(own)));
    wire::put(&mut page, 6, &wire::bytes_of::<4>(units::tag_of(own)));
    let mask = units::mask_of(keys);
    wire::put(&mut page, 10, &wire::bytes_of::<2>(mask));
    page
}

// 0013h: the head, and the rows behind it.
fn controlled_page() -> [u8; 190]
    ensures { result ≡ controlled_page }
{
    let mut page = [0; 190];
    wire::put(&mut page, 0, &CONTROLLED_HEAD);
    wire::put(&mut page, 4, model::controlled_rows());
    page
}

// Writes as many bytes of a page as the allocation length asks for at the front of the reply, and says how many that is.
fn cut_into(reply: &mut Record, page: &[u8], allocation: u32) -> u32
    requires { length page.now ≤ 512 }
    ensures { (result ≡ length (take allocation page.now)) × (reply.new ≡ patch reply.old 0 (take allocation page.now)) }
{
    let count = page.len().min(allocation as usize);
    wire::put(reply, 0, &page[..count]);
    count as u32
}

// Writes what a unit with that record and key set replies, cut once, and says how many bytes that is. An enum of pages would be made only
// to be matched here: a page is the number that the CDB names, whatever it is.
pub fn reply(reply: &mut Record, page: u32, allocation: u32, own: &[u8], keys: &[u8]) -> u32
    ensures { (result ≡ length (reply_of page allocation own.now keys.now)) × (reply.new ≡ patch reply.old 0 (reply_of page allocation own.now keys.now)) }
{
    match page {
        model::PAGES_OF_IN => cut_into(reply, &SUPPORTED_IN, allocation),
        model::PAGES_OF_OUT => cut_into(reply, &SUPPORTED_OUT, allocation),
        model::CAPABILITIES_IN => cut_into(reply, &CAPABILITIES, allocation),
        model::ATTRIBUTES_IN => cut_into(reply, &attributes_page(own, keys), allocation),
        model::CONTROLLED_IN => cut_into(reply, &controlled_page(), allocation),
        _ => 0,
    }
}
