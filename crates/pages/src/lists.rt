// The parameter lists of the Out pages (document 01, "Pages"): what one says, by its page, and what is wrong with one.
ghost use Rattle.std.specs.Prelude.{◌≡◌, ◌-◌, IfOk, is_err};
ghost use Rattle.wire.specs.Bytes.{number};
ghost use Rattle.model.specs.Totals.{total_of};
ghost use Rattle.model.specs.Protocol.{set_attributes, set_key, seed_exchange};
ghost use Rattle.pages.specs.Out.{new_method, new_tag, list_page, list_length, wrong_attributes, wrong_key, wrong_exchange, wrong_list};
ghost use Rattle.pages.specs.Parameters.{Says};

use super::reader::Reader;
use model::KeyVersion;

// What every list begins with: page code and page length, and the reader behind them.
#[derive(Clone, Copy)]
pub struct Head<'a> {
    pub page: u32,
    pub length: u32,
    pub fields: Reader<'a>,
    ghost behind: { fields.at ≡ 4 },
}

impl<'a> Head<'a> {
    #[tactic(auto, unfolding(crate::specs::Out::list_page, crate::specs::Out::list_length))]
    pub fn read(list: &'a [u8]) -> Head<'a>
        ensures { (result.page ≡ list_page list.now) × (result.length ≡ list_length list.now) × (result.fields.list ≡ list.entry) }
    {
        let mut fields = Reader::new(list);
        let page = fields.next::<2>();
        let length = fields.next::<2>();
        Head {
            page,
            length,
            fields,
        }
    }
}

// Set Attributes: method, tag, and two zeros.
#[derive(Clone, Copy)]
pub struct Attributes {
    pub method: u32,
    pub tag: u32,
    pub zeros: u32,
}

impl Attributes {
    #[tactic(auto, unfolding(crate::specs::Out::new_method, crate::specs::Out::new_tag))]
    pub fn read(head: Head) -> Attributes
        ensures { (result.method ≡ new_method head.entry.fields.list.now) × (result.tag ≡ new_tag head.entry.fields.list.now)
            × (result.zeros ≡ number 2 10 head.entry.fields.list.now) }
    {
        let mut fields = head.fields;
        let method = fields.next::<2>();
        let tag = fields.next::<4>();
        let zeros = fields.next::<2>();
        Attributes { method, tag, zeros }
    }
}

// Set Key: the version whose key is made, and the seed.
#[derive(Clone, Copy)]
pub struct NewKey<'a> {
    pub version: KeyVersion,
    pub seed: &'a [u8],
}

// What a list that nothing is wrong with says.
#[derive(Clone, Copy)]
pub enum Parameters<'a> {
    Attributes(Attributes),
    Key(NewKey<'a>),
    Exchange { value: &'a [u8] },
    Change,
}

// Page code, page length, a field or a named zero is wrong, or OUT has no such page: 19.
#[derive(Clone, Copy)]
pub struct Wrong;

// The page length: what follows it.
fn page_length(page: u32) -> u32
    ensures { result ≡ total_of page - 4 }
{
    model::out_total(page).saturating_sub(4)
}

impl<'a> Parameters<'a> {
    // Set Attributes: a method above 1 is wrong, and any tag may be set.
    #[tactic(auto, unfolding(crate::specs::Out::wrong_attributes))]
    fn attributes(head: Head<'a>) -> Result<Parameters<'a>, Wrong>
        ensures wrong { is_err result ≡ wrong_attributes head.entry.fields.list.now }
        ensures says { IfOk result (λ p. Says set_attributes head.entry.fields.list.now p) }
    {
        let attributes = Attributes::read(head);
        if attributes.method > 1 || attributes.zeros != 0 {
            return Err(Wrong);
        }
        Ok(Parameters::Attributes(attributes))
    }

    // Set Key: a version of 0 to 15, three zeros, and the seed.
    #[tactic(auto, unfolding(crate::specs::Out::wrong_key, crate::specs::Out::new_version))]
    fn key(head: Head<'a>) -> Result<Parameters<'a>, Wrong>
        ensures wrong { is_err result ≡ wrong_key head.entry.fields.list.now }
        ensures says { IfOk result (λ p. Says set_key head.entry.fields.list.now p) }
    {
        let mut fields = head.fields;
        let version = fields.next::<1>();
        let zeros = fields.next::<3>();
        let (Some(version), 0) = (KeyVersion::new(version), zeros) else {
            return Err(Wrong);
        };
        let seed = fields.rest();
        Ok(Parameters::Key(NewKey { version, seed }))
    }

    // Seed Exchange: group 000Eh, two zeros, and the agreed value.
    #[tactic(auto, unfolding(crate::specs::Out::wrong_exchange, crate::specs::Out::group))]
    fn exchange(head: Head<'a>) -> Result<Parameters<'a>, Wrong>
        ensures wrong { is_err result ≡ wrong_exchange head.entry.fields.list.now }
        ensures says { IfOk result (λ p. Says seed_exchange head.entry.fields.list.now p) }
    {
        let mut fields = head.fields;
        let group = fields.next::<2>();
        let zeros = fields.next::<2>();
        if group != 0x000E || zeros != 0 {
            return Err(Wrong);
        }
        Ok(Parameters::Exchange {
            value: fields.rest(),
        })
    }

    // What a list of the page says. A page is the number that the CDB names, whatever it is; what comes of it here is the enum.
    #[tactic(auto, unfolding(crate::specs::Out::wrong_fields, crate::specs::Out::wrong_list))]
    pub fn read(page: u32, list: &'a [u8]) -> Result<Parameters<'a>, Wrong>
        ensures wrong { is_err result ≡ wrong_list page list.now }
        ensures says { IfOk result (λ p. Says page list.now p) }
    {
        let head = Head::read(list);
        if head.page != page || head.length != page_length(page) {
            return Err(Wrong);
        }
        match page {
            model::SET_ATTRIBUTES => Parameters::attributes(head),
            model::SET_KEY => Parameters::key(head),
            model::SEED_EXCHANGE => Parameters::exchange(head),
            model::CHANGE_MASTER => Ok(Parameters::Change),
            _ => Err(Wrong),
        }
    }
}

// 19: page code, page length, a field or a named zero wrong.
pub fn wrong_list(page: u32, list: &[u8]) -> bool
    ensures { result ≡ wrong_list page list.now }
{
    Parameters::read(page, list).is_err()
}
