// Where words stand in their function.

ghost use Rattle.std.specs.Prelude.{◌≡◌, ◌<◌, ◌≤◌, ℕ, suc, length, IfOk, IfErr, slice_index};
ghost use Rattle.call_layout.specs.declared.faults.Fault.TheVariants.{TooLarge};
ghost use Rattle.run_rooms.specs.Sums.{before};
ghost use Rattle.run_rooms.specs.Layout.{AreOffsets, HasFarSum};

use call_layout::Fault;
use std::alloc::Global;

/// The words before each instruction in its function, and those of each function, by their numbers.
#[derive(Drop)]
pub struct Offsets {
    pub offsets: Vec<u32>,
    pub sums: Vec<u32>,
}

/// Counts the words of instructions by their functions, if 32 bits tell it.
pub fn offsets_of(alloc: Global, homes: &[usize], words: &[u32]) -> Result<Offsets, Fault>
    requires as_many { length homes.now ≡ length words.now }
    requires known { (k : ℕ) → k < length homes.now → slice_index homes.now k ≤ length homes.now }
    ensures offsets { IfOk result (λ o. AreOffsets homes.now words.now o.offsets.items o.sums.items) }
    ensures too_large { IfErr result (λ fault. fault ≡ TooLarge
        → HasFarSum (suc (length homes.now)) (λ f. before (slice_index homes.now) (slice_index words.now) f (length homes.now))) }
{
    let mut sums = vec![in alloc; 0u32; homes.len()]?;
    sums.push(0)?;
    let mut offsets = Vec::new(alloc);
    for (number, home) in homes.iter().enumerate() {
        offsets.push(sums[*home])?;
        match sums[*home].checked_add(words[number]) {
            Some(sum) => sums[*home] = sum,
            None => return Err(Fault::TooLarge),
        }
    }
    Ok(Offsets { offsets, sums })
}
