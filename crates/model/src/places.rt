// The units, slots and versions of a working key that there are: a value of one of these types is a number in its range. They are three
// types and not one over the bound, since document 01 wants that none is ever taken for another.
ghost use Rattle.std.specs.Prelude.{◌≡◌, ℕ, ◌<◌, ◌↔◌, IsSome, IfSome};

use crate::{SlotNo, UnitNo};
use std::marker::Model;

// One of the eight units.
#[derive(Clone, Copy, PartialEq, Eq)]
pub struct Unit(u32);

impl Model for Unit {
    ghost Value = { ℕ };

    ghost view = { λ x. x.0 };

    ghost invariant = { λ x. x.0 < 8 };

    ghost inverse = { λ n. record { 0 = n } };
}

impl Unit {
    pub fn new(no: UnitNo) -> Option<Self>
        ensures there { IsSome result ↔ (no.0 < 8) }
        ensures same { IfSome result (λ x. x ≡ no.0) }
    {
        if no.0 < 8 { Some(Unit(no.0)) } else { None }
    }

    pub fn no(self) -> UnitNo
        ensures same { result.0 ≡ self }
        ensures there { result.0 < 8 }
    {
        UnitNo(self.0)
    }
}

// One of the sixteen slots.
#[derive(Clone, Copy, PartialEq, Eq)]
pub struct Slot(u32);

impl Model for Slot {
    ghost Value = { ℕ };

    ghost view = { λ x. x.0 };

    ghost invariant = { λ x. x.0 < 16 };

    ghost inverse = { λ n. record { 0 = n } };
}

impl Slot {
    pub fn new(no: SlotNo) -> Option<Self>
        ensures there { IsSome result ↔ (no.0 < 16) }
        ensures same { IfSome result (λ x. x ≡ no.0) }
    {
        if no.0 < 16 { Some(Slot(no.0)) } else { None }
    }

    pub fn no(self) -> SlotNo
        ensures same { result.0 ≡ self }
        ensures there { result.0 < 16 }
    {
        SlotNo(self.0)
    }
}

// One of the sixteen versions of a working key.
#[derive(Clone, Copy, PartialEq, Eq)]
pub struct KeyVersion(u32);

impl Model for KeyVersion {
    ghost Value = { ℕ };

    ghost view = { λ x. x.0 };

    ghost invariant = { λ x. x.0 < 16 };

    ghost inverse = { λ n. record { 0 = n } };
}

impl KeyVersion {
    pub fn new(number: u32) -> Option<Self>
        ensures there { IsSome result ↔ (number < 16) }
        ensures same { IfSome result (λ x. x ≡ number) }
    {
        if number < 16 {
            Some(KeyVersion(number))
        } else {
            None
        }
    }

    pub fn number(self) -> u32
        ensures same { result ≡ self }
        ensures there { result < 16 }
    {
        self.0
    }
}
