// A machine that runs a valid image.

ghost use Rattle.std.specs.Prelude.{◌≡◌, ◌≤◌, ℕ, List, true, length, None, IfOk, IfSome};
ghost use Rattle.std.specs.List.{AllByRecursion};
ghost use Rattle.spirv_words.specs.Step.{State, step as step_of};
ghost use Rattle.spirv_words.specs.Runs.{setting, start as start_of};
ghost use Rattle.run_actions.specs.Steps.{flat_step};
ghost use Rattle.run_buffers.specs.Texts.{IsWord};
ghost use Rattle.run_plans.specs.Grounds.{IsTooLarge};
ghost use Rattle.run_buffers.specs.declared.buffer.Buffer.{Buffer};
ghost use Rattle.run_buffers.specs.declared.ids.Ids.{Ids};
ghost use Rattle.run_buffers.specs.Invocations.{volume};
ghost use Rattle.spirv_check.specs.Entry.{entry_name, group_size};
ghost use Rattle.spirv_run.specs.Shared.{built_ins_of, lengths_in};
ghost use Rattle.spirv_run.specs.Dispatch.{HasAll, FirstMissing};
ghost use Rattle.spirv_run.specs.Machines.{image_of, moved_to, looked_up, AreEnough, AreCounts, At, AreLengths, HasDone};
ghost use Rattle.spirv_run.specs.Parts.{IsMoved};
ghost use Rattle.spirv_run.specs.Going.{IsReady};

use crate::advance::advance;
use crate::beginning::begin;
use crate::binding::bind;
use crate::turns::Turn;
use run_buffers::{Buffers, Ids};
use run_plans::{Bound, Fault, Plan, plan_of};
use slang_names::Name;
use spirv_check::ValidImage;
use std::alloc::{AllocError, Global};
use std::marker::Model;

/// A valid image and the state of one invocation.
#[derive(Drop)]
pub struct Runner {
    image: ValidImage,
    plan: Plan,
    place: usize,
    words: Vec<u32>,
    positions: Vec<usize>,
    counts: Vec<u32>,
    is_bound: bool,
}

impl Model for Runner {
    ghost use Rattle.spirv_run.specs.Machines.{Machine, IsMachine};

    ghost Value = { Machine };

    ghost view = { λ r. record { image = r.image; plan = r.plan; place = r.place; words = r.words.items; positions = r.positions.items; counts = r.counts.items; is_bound = r.is_bound } };

    ghost invariant = { λ r. IsMachine r.image r.plan r.words.items r.positions.items r.counts.items };
}

impl Runner {
    /// A runner of the image. It errs for want of memory, also where a run needs numbers that 32 bits do not tell.
    pub fn new(alloc: Global, image: ValidImage) -> Result<Runner, AllocError>
        ensures image { IfOk result (λ r. image_of r ≡ image) }
        ensures enough { IfOk result (λ r. IsTooLarge image.instructions → ⊥) }
    {
        let plan = match plan_of(alloc, &image) {
            Ok(plan) => plan,
            Err(Fault::Memory(e)) => return Err(e),
            Err(Fault::TooLarge) => return Err(AllocError),
        };
        let words = plan.words.as_slice().to_vec(alloc)?;
        let positions = vec![in alloc; 0; plan.buffers.len()]?;
        let counts = vec![in alloc; 0; plan.buffers.len()]?;
        Ok(Runner {
            image,
            plan,
            place: 0,
            words,
            positions,
            counts,
            is_bound: false,
        })
    }

    /// Begins an invocation, at any time, and gives up the one before. It takes no memory.
    pub fn start(&mut self, ids: &Ids)
        ensures image { image_of self.new ≡ image_of self.old }
        ensures begins { (lengths : ℕ → ℕ → ℕ) → AreEnough (image_of self.old).instructions lengths
            → At self.new ids.now lengths (start_of (setting (image_of self.old).instructions (built_ins_of ids.now) lengths)) }
    {
        self.is_bound = false;
        self.restart(ids);
    }

    /// One step of the invocation that was begun, on buffers of which none is missing or short and each has as many words as
    /// when it began. It takes no memory.
    pub fn step(&mut self, buffers: &mut Buffers) -> Turn
        ensures image { image_of self.new ≡ image_of self.old }
        ensures does { (ids : Ids) (lengths : ℕ → ℕ → ℕ) (s : State) → At self.old ids lengths s → AreLengths lengths buffers.old → HasAll (image_of self.old).instructions buffers.old
            → HasDone (step_of (setting (image_of self.old).instructions (built_ins_of ids) lengths) s) self.new ids lengths result buffers.old buffers.new }
    {
        if !self.is_bound {
            self.look_up(buffers);
        }
        self.go_on(buffers)
    }

    /// The name of the image's entry.
    pub(crate) fn entry_name(&self) -> &Name
        ensures { result.now ≡ entry_name self.now.image.instructions }
    {
        self.image.entry_name()
    }

    /// The sizes of a group.
    pub(crate) fn group_size(&self) -> [u32; 3]
        ensures size { result ≡ group_size self.now.image.instructions }
        ensures few { volume result ≤ 1024 }
    {
        self.image.group_size()
    }

    /// Begins an invocation on the buffers that were looked up, if they were.
    pub(crate) fn restart(&mut self, ids: &Ids)
        ensures kept { self.new ≡ moved_to self.old self.new.place self.new.words }
        ensures begins { (lengths : ℕ → ℕ → ℕ) → AreEnough self.old.image.instructions lengths
            → (self.old.is_bound ≡ true → AreCounts self.old.plan.buffers lengths self.old.counts)
            → At self.new ids.now lengths (start_of (setting self.old.image.instructions (built_ins_of ids.now) lengths)) }
        ensures ready { (memory : List Buffer) → IsReady self.old memory
            → At self.new ids.now (lengths_in memory) (start_of (setting self.old.image.instructions (built_ins_of ids.now) (lengths_in memory))) }
    {
        begin(&self.plan, ids, &mut self.words);
        self.place = self.plan.place;
    }

    /// Looks up the buffers that the image asks for, and finds the first one that is missing or short.
    pub(crate) fn look_up(&mut self, buffers: &Buffers) -> Option<Bound>
        ensures kept { self.new ≡ looked_up self.old self.new.positions self.new.counts self.new.is_bound }
        ensures all { result ≡ None → IsReady self.new buffers.now }
        ensures lacking { IfSome result (λ b. FirstMissing self.old.image.instructions buffers.now b.set b.binding) }
    {
        let lacking = bind(
            self.plan.buffers.as_slice(),
            buffers,
            &mut self.positions,
            &mut self.counts,
        );
        self.is_bound = lacking.is_none();
        lacking
    }

    /// One step on the buffers that were looked up.
    #[inline]
    pub(crate) fn go_on(&mut self, buffers: &mut Buffers) -> Turn
        ensures kept { self.new ≡ moved_to self.old self.new.place self.new.words }
        ensures moves { IsMoved self.old.plan.buffers (flat_step self.old.plan.actions.items self.old.counts self.old.place self.old.words)
            self.old.place self.old.words buffers.old result self.new.place self.new.words buffers.new }
        ensures words { AllByRecursion IsWord self.old.words }
        ensures counts { AllByRecursion IsWord self.old.counts }
        ensures as_many { length self.old.counts ≡ length self.old.plan.buffers }
    {
        advance(
            &self.plan,
            &self.positions,
            &self.counts,
            &mut self.place,
            &mut self.words,
            buffers,
        )
    }
}
