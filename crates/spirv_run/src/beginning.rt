// The words with which an invocation begins.

ghost use Rattle.std.specs.Prelude.{◌≡◌, ◌+◌, ◌≤◌, [], ◌∷◌, length};
ghost use Rattle.flat_values.specs.Ranges.{written};
ghost use Rattle.spirv_run.specs.Parts.{HaveRoom, HasThree, begun};

use flat_values::clear_words;
use run_buffers::Ids;
use run_plans::Plan;

fn put_three(words: &mut [u32], place: usize, three: [u32; 3])
    requires { place + 3 ≤ length words.old }
    ensures words { words.new ≡ written words.old place three }
    ensures count { length three ≡ 3 }
{
    words[place..place + 3].copy_from_slice(&three);
}

fn put_one(words: &mut [u32], place: usize, word: u32)
    requires { place + 1 ≤ length words.old }
    ensures { words.new ≡ written words.old place (word ∷ []) }
{
    words[place..place + 1].fill(word);
}

/// Writes the words with which an invocation begins. It takes no memory.
pub fn begin(plan: &Plan, ids: &Ids, words: &mut [u32])
    requires as_many { length words.old ≡ length plan.now.words.items }
    requires room { HaveRoom plan.now (length words.old) }
    ensures words { words.new ≡ begun plan.now ids.now }
    ensures three { HasThree ids.now }
{
    words.copy_from_slice(&plan.words);
    clear_words(words, plan.first as usize, plan.count as usize);
    put_three(words, plan.inputs[0] as usize, ids.group);
    put_three(words, plan.inputs[1] as usize, ids.local);
    put_three(words, plan.inputs[2] as usize, ids.global);
    put_one(words, plan.inputs[3] as usize, ids.index);
}
