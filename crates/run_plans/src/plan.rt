// All that an image is run by.

ghost use Rattle.std.specs.Prelude.{◌≡◌, IfOk, IfErr};
ghost use Rattle.call_layout.specs.declared.faults.Fault.TheVariants.{TooLarge};
ghost use Rattle.spirv_words.specs.Runs.{start_place};
ghost use Rattle.run_rooms.specs.Rooms.{Rooms};
ghost use Rattle.run_plans.specs.Buffers.{AreBounds};
ghost use Rattle.run_plans.specs.Ground.{rooms_of};
ghost use Rattle.run_plans.specs.Grounds.{AreFew, IsGround, IsTooLarge};
ghost use Rattle.run_plans.specs.Whole.{IsPlan};

use crate::actions::actions_of;
use crate::base::{Bound, Ground};
use crate::buffers::buffers_of;
use crate::ends::are_near;
use crate::members::rows_of;
use crate::words::first_words;
use call_layout::Fault;
use image_declarations::Declarations;
use image_lookup::entry_of;
use run_actions::Action;
use run_rooms::Places;
use spirv_check::ValidImage;
use sqlite_items::Items;
use std::alloc::{AllocError, Global};

/// What an image is run by.
#[derive(Drop)]
pub struct Plan {
    /// The action of each instruction.
    pub actions: Vec<Action>,
    /// The words with which a run begins. Those of the built-in values are still 0.
    pub words: Vec<u32>,
    /// The buffers, ascending by set and then by binding. An action tells a buffer by its number among them.
    pub buffers: Items<Bound>,
    /// The instruction with which a run begins.
    pub place: usize,
    /// Where the variables of the entry stand, and how many words they have.
    pub first: u32,
    pub count: u32,
    /// Where the built-in values stand: WorkgroupId, LocalInvocationId and GlobalInvocationId, with three words each, and
    /// LocalInvocationIndex.
    pub inputs: [u32; 4],
}

/// The entry's first Label.
fn start_place(declarations: &Declarations) -> usize
    requires few { AreFew declarations.now }
    ensures { result ≡ start_place declarations.now }
{
    let entry = match entry_of(declarations.code()) {
        Some(entry) => entry,
        None => 0,
    };
    match declarations.definitions().place(entry) {
        Some(place) => place + 1,
        None => 1,
    }
}

/// The plan, where the places of values and the buffers are known.
fn plan_on(alloc: Global, base: Ground) -> Result<Plan, AllocError>
    requires ground { IsGround base }
    requires bounds { AreBounds base.places.code base.buffers }
    ensures { IfOk result (IsPlan base.entry.places.code (rooms_of base.entry)) }
{
    let actions = actions_of(alloc, &base)?;
    let words = first_words(alloc, &base)?;
    let place = start_place(base.declarations());
    let first = base.rooms(place);
    let count = base.rooms_count(place);
    let inputs = [
        base.input(26),
        base.input(27),
        base.input(28),
        base.input(29),
    ];
    let Ground { buffers, .. } = base;
    Ok(Plan {
        actions,
        words,
        buffers,
        place,
        first,
        count,
        inputs,
    })
}

/// What a valid image is run by. It errs for want of memory, and exactly where a run needs numbers that 32 bits do not tell.
pub fn plan_of(alloc: Global, image: &ValidImage) -> Result<Plan, Fault>
    ensures plan { IfOk result (λ p. (L : Rooms) × IsPlan image.now.instructions L p) }
    ensures enough { IfOk result (λ p. IsTooLarge image.now.instructions → ⊥) }
    ensures too_large { IfErr result (λ fault. fault ≡ TooLarge → IsTooLarge image.now.instructions) }
{
    let places = Places::new(alloc, image.image().instructions.as_slice())?;
    if !are_near(places.declarations()) {
        return Err(Fault::TooLarge);
    }
    let buffers = buffers_of(alloc, places.declarations())?;
    let members = rows_of(alloc, &places)?;
    let base = Ground {
        places,
        buffers,
        members,
    };
    Ok(plan_on(alloc, base)?)
}
