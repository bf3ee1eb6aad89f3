// A type, with the limits of the language.

ghost use Rattle.std.specs.Prelude.{◌≡◌, ◌≤◌, ◌+◌, ℕ, IfOk, Err};
ghost use Rattle.slang_tree.specs.declared.types.TypeTree.{TypeTree};
ghost use Rattle.slang_reading.specs.declared.faults.Fault.TheVariants as fault;
ghost use Rattle.slang_reading.specs.Cursor.{Runs};
ghost use Rattle.slang_grammar.specs.Types.{TypeAt, Quiet};
ghost use Rattle.slang_grammar.specs.Heights.{height};
ghost use Rattle.slang_grammar.specs.Sizes.{TypeFits};
ghost use Rattle.type_reading.specs.Limited.{language};
ghost use Rattle.type_reading.specs.Reads.{one_type, Answers, SomeTypeBegins};

use crate::descent::types;
use crate::limits::LANGUAGE;
use slang_names::limits::NESTING;
use slang_reading::{Fault, Tokens};
use slang_tree::TypeTree;
use std::alloc::Global;

/// The type that the next tokens spell, within the limits of the language; the cursor then stands behind it. A type within
/// the limits behind which none goes on is answered, unless memory runs out, and no spelled type is stopped, whatever its
/// size. Where it stops at a token of a text that was begun with, some type begins with the tokens before it.
#[tactic(auto, unfolding(crate::specs::Reads::one_type, slang_reading::specs::Reading::bind))]
pub fn read_type(alloc: Global, tokens: &mut Tokens<'_>) -> Result<TypeTree, Fault>
    ensures reads { Runs (one_type language 64) tokens.old result tokens.new }
    ensures spelled { IfOk result (λ x. TypeAt tokens.old.tokens x tokens.old.at tokens.new.at) }
    ensures nested { IfOk result (λ x. height x ≤ 64) }
    ensures answered { (x : TypeTree) (to : ℕ) → TypeAt tokens.old.tokens x tokens.old.at to → Quiet tokens.old.tokens to → TypeFits language 64 x → Answers x to result tokens.new }
    ensures not_stopped { (x : TypeTree) (to : ℕ) → TypeAt tokens.old.tokens x tokens.old.at to → Quiet tokens.old.tokens to → result ≡ Err fault.Stopped → ⊥ }
    ensures goes_on { (at : ℕ) → tokens.old.at ≡ 0 → tokens.old.seen ≡ 0 → result ≡ Err fault.Stopped → tokens.new.seen ≡ at + 1 → SomeTypeBegins tokens.old.tokens at }
{
    let (x, _height) = types(alloc, LANGUAGE, tokens, NESTING)?;
    Ok(x)
}
