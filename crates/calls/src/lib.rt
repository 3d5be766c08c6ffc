// The calls. None asks anything of its caller; each promise fixes the answer and every lent byte for any input.
#![tactic(auto)]

mod closing;
mod opening;

ghost use Rattle.std.specs.Prelude.{◌≡◌, leb, is_some, IfSome};
ghost use Rattle.choice.specs.Choice.{both};
ghost use Rattle.calls.specs.Outcome.{leaves};
ghost use Rattle.calls.specs.Build.{right_keeper, build_out};
ghost use Rattle.calls.specs.Slots.{abort_out, reset_out};

pub use closing::close;
use closing::held;
pub use model::Build;
use model::{Answer, SlotNo, Unit, UnitNo};
pub use opening::{Answered, open};
use units::UnitTable;

// May the record of a unit have that in its keeper field? Zero, or one more than the number of another unit that keeps keys.
#[tactic(auto, using(crate::proofs::BuildLaws::keeper_none, crate::proofs::BuildLaws::keeper_high, crate::proofs::BuildLaws::keeper_itself, crate::proofs::BuildLaws::keeper_other))]
fn right_keeper(units: &UnitTable, unit: Unit, keeper: u32) -> bool
    ensures { result ≡ right_keeper units.now unit keeper }
{
    if keeper == 0 {
        return true;
    }
    match Unit::new(UnitNo(keeper - 1)) {
        Some(other) => other != unit && units::keeps_keys(units, other),
        None => false,
    }
}

// The unit that is built, where it may be: its number not above 7, the method not above 1, the keeper one that may be.
#[tactic(auto, using(crate::proofs::BuildLaws::high_unbuilt))]
fn buildable(units: &UnitTable, build: Build) -> Option<Unit>
    ensures there { is_some result ≡ both (leb build.unit.0 7) (both (leb build.method 1) (right_keeper units.now build.unit.0 build.keeper)) }
    ensures same { IfSome result (λ u. u ≡ build.unit.0) }
{
    let unit = Unit::new(build.unit)?;
    if build.method <= 1 && right_keeper(units, unit, build.keeper) {
        Some(unit)
    } else {
        None
    }
}

// Builds a unit record, over whatever stood there: with the keys asked for, or as a sharer of its keeper's, with none.
#[tactic(auto, using(crate::proofs::BuildLaws::build_length, crate::proofs::BuildLaws::build_barred))]
pub fn build(units: &mut [u8], build: Build) -> Answer
    ensures { leaves result units.new ≡ build_out units.old build.unit.0 build.method build.tag build.identifier build.auth_key build.gen_key build.keeper }
{
    let Some(units) = units.as_mut_array() else {
        return Answer::H1;
    };
    let Some(unit) = buildable(units, build) else {
        return Answer::H5;
    };
    let (_, rest) = units.split_at_mut(unit.no().0 as usize * 512);
    units::write_built(rest.first_chunk_mut().unwrap(), build);
    Answer::Good(0)
}

// Frees an open slot: its command is given up.
#[tactic(auto, using(crate::proofs::SlotsLaws::abort_length, crate::proofs::SlotsLaws::abort_not, crate::proofs::SlotsLaws::abort_good))]
pub fn abort(slots: &mut [u8], slot: SlotNo) -> Answer
    ensures { leaves result slots.new ≡ abort_out slots.old slot.0 }
{
    let Some(slots) = slots.as_mut_array() else {
        return Answer::H1;
    };
    let Some(slot) = held(slots, slot) else {
        return Answer::H3;
    };
    slots::free(slots, slot);
    Answer::Good(0)
}

// Frees every slot, unsound ones too.
#[tactic(auto, using(crate::proofs::SlotsLaws::reset_length, crate::proofs::SlotsLaws::reset_good))]
pub fn reset(slots: &mut [u8]) -> Answer
    ensures { leaves result slots.new ≡ reset_out slots.old }
{
    let Some(slots) = slots.as_mut_array() else {
        return Answer::H1;
    };
    slots::free_all(slots);
    Answer::Good(0)
}
