// The faults of a capability, reasons 7 to 13, each as document 01 words it.
ghost use Rattle.std.specs.Prelude.{◌≡◌, length};
ghost use Rattle.units.specs.Unit.{identifier};
ghost use Rattle.judge.specs.Faults.{wrong_format, wrong_method, wrong_algorithm, expired, lacks_bits, lacks_need, wrong_tag, wrong_descriptor};
ghost use Rattle.judge.specs.Descriptor.{descriptor_type, descriptor_length, descriptor_id};

use model::Need;
use seal::Record;

// 7: format not 1h.
#[tactic(auto, unfolding(crate::specs::Faults::wrong_format))]
pub fn wrong_format(format: u8) -> bool
    ensures { result ≡ wrong_format format }
{
    format != 1
}

// 8: method not CAPKEY where CAPKEY rules, else above 1.
#[tactic(auto, unfolding(crate::specs::Faults::wrong_method))]
pub fn wrong_method(rules: bool, method: u8) -> bool
    ensures { result ≡ wrong_method rules method }
{
    if rules { method != 1 } else { 1 < method }
}

// 9: algorithm not 1, where CAPKEY rules.
#[tactic(auto, unfolding(crate::specs::Faults::wrong_algorithm))]
pub fn wrong_algorithm(rules: bool, algorithm: u32) -> bool
    ensures { result ≡ wrong_algorithm rules algorithm }
{
    rules && algorithm != 1
}

// 10: expiration not zero and below the clock.
#[tactic(auto, unfolding(crate::specs::Faults::expired))]
pub fn is_expired(expiration: u64, clock: u64) -> bool
    ensures { result ≡ expired expiration clock }
{
    expiration != 0 && expiration < clock
}

// A needed permission bit missing.
fn lacks_bits(needed: u8, permissions: u8) -> bool
    ensures { result ≡ lacks_bits needed permissions }
{
    needed & permissions != needed
}

// 11: a needed permission bit missing. To an unknown command no permission is enough.
pub fn lacks_need(need: Need, permissions: u8) -> bool
    ensures { result ≡ lacks_need need permissions }
{
    match need {
        Need::Unknown => true,
        Need::Open => false,
        Need::Bits(needed) => lacks_bits(needed, permissions),
        Need::Master(needed) => lacks_bits(needed, permissions),
    }
}

// 12: policy tag not zero and not the unit's.
#[tactic(auto, unfolding(crate::specs::Faults::wrong_tag))]
pub fn wrong_tag(tag: u32, unit_tag: u32) -> bool
    ensures { result ≡ wrong_tag tag unit_tag }
{
    tag != 0 && tag != unit_tag
}

// 13: type not 1h, length not 16, or identifier not the unit's.
#[tactic(auto, unfolding(crate::specs::Faults::wrong_descriptor, crate::specs::Descriptor::descriptor_type, crate::specs::Descriptor::descriptor_length, crate::specs::Descriptor::descriptor_id))]
pub fn wrong_descriptor(descriptor: &[u8], own: &Record) -> bool
    requires { length descriptor.now ≡ 58 }
    ensures { result ≡ wrong_descriptor (descriptor_type descriptor.now) (descriptor_length descriptor.now) (descriptor_id descriptor.now) (identifier own.now) }
{
    let kind = wire::at(descriptor, 40) % 16;
    let len = wire::at(descriptor, 41);
    let named = wire::same(&descriptor[42..58], units::identifier_of(own));
    kind != 1 || len != 16 || !named
}
