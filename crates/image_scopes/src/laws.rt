// Laws of the instructions of a valid image, each the contract of a function that does nothing.

ghost use Rattle.std.specs.Prelude.{◌≡◌, ◌⊎◌, ℕ, suc, ◌<◌, true, false, ◌||◌, List, [], ◌∷◌, Some, drop, slice_get};
ghost use Rattle.spirv_words.specs.declared.opcodes.Op.TheVariants.{Branch, BranchConditional, FunctionCall, Return, ReturnValue};
ghost use Rattle.spirv_words.specs.declared.images.Instruction.{Instruction};
ghost use Rattle.spirv_words.specs.declared.images.Image.{Image};
ghost use Rattle.spirv_words.specs.Machine.{result_of, place_of};
ghost use Rattle.image_lookup.specs.Lookups.{operand, is_value};
ghost use Rattle.image_declarations.specs.Holdings.{is_data, has_type};
ghost use Rattle.image_places.specs.declared.roles.Role.TheVariants.{Use};
ghost use Rattle.image_places.specs.Places.{function_of};
ghost use Rattle.image_rules.specs.Ids.{role_in};
ghost use Rattle.image_rules.specs.Blocks.{is_ending};
ghost use Rattle.image_types.specs.Rules.{rule_of};
ghost use Rattle.image_types.specs.Parts.{is_type, is_parameter_type};
ghost use Rattle.image_types.specs.Functions.{is_void, is_function};
ghost use Rattle.image_types.specs.Checking.{meets, context_at};
ghost use Rattle.image_calls.specs.Arguments.{parameter_types};
ghost use Rattle.spirv_check.specs.Valid.{Valid};
ghost use Rattle.image_scopes.specs.Scopes.{IsRun, IsSeen, IsGlobal};
ghost use Rattle.image_scopes.specs.Runs.{Runs};
ghost use Rattle.image_scopes.specs.Facts.{Next, Target, Begun, Begins, Calls, Within};

/// An instruction of a valid image meets the rule on types of its opcode. One that is run has an opcode that may be run, with as
/// many operands as it has, and stands in a function that the rules know.
pub fn what_is_run_fits()
    ensures shape { (image : Image) → Valid image → (k : ℕ) (run : IsRun image.instructions k)
        → Runs run.instruction.op run.instruction.operands }
    ensures rule { (image : Image) → Valid image → (k : ℕ) (i : Instruction) → slice_get image.instructions k ≡ Some i
        → meets (rule_of i.op) image.instructions (context_at image.instructions k) k i (drop (suc k) image.instructions) ≡ true }
    ensures context { (image : Image) → Valid image → (k : ℕ) → IsRun image.instructions k → Within image.instructions k }
{}

/// What an instruction of a valid image uses is defined before it, where it is run: a value is seen, and a type stands outside of
/// functions. A result is defined there alone. A value that is seen is defined outside of functions, or in the same function, and
/// those outside are seen everywhere.
pub fn what_is_used_is_seen()
    ensures value { (image : Image) → Valid image → (k : ℕ) (run : IsRun image.instructions k) (j x : ℕ)
        → slice_get run.instruction.operands j ≡ Some x → role_in run.instruction j ≡ Use → is_value image.instructions x ≡ true
        → IsSeen image.instructions k x }
    ensures type_before { (image : Image) → Valid image → (k : ℕ) (i : Instruction) → slice_get image.instructions k ≡ Some i → (j x : ℕ)
        → slice_get i.operands j ≡ Some x → role_in i j ≡ Use → is_type image.instructions x ≡ true
        → (p : ℕ) × (place_of image.instructions x 0 ≡ Some p) × (p < k) × (function_of image.instructions p ≡ 0) }
    ensures once { (image : Image) → Valid image → (k : ℕ) (i : Instruction) → slice_get image.instructions k ≡ Some i → (x : ℕ)
        → result_of i.op i.operands ≡ Some x → place_of image.instructions x 0 ≡ Some k }
    ensures new { (image : Image) → Valid image → (k : ℕ) (i : Instruction) → slice_get image.instructions k ≡ Some i → (x : ℕ)
        → result_of i.op i.operands ≡ Some x → IsSeen image.instructions k x → ⊥ }
    ensures global { (image : Image) → Valid image → (k : ℕ) → IsRun image.instructions k → (x : ℕ) → IsGlobal image.instructions x
        → IsSeen image.instructions k x }
    ensures near { (image : Image) → Valid image → (k : ℕ) → IsRun image.instructions k → (x : ℕ) (s : IsSeen image.instructions k x)
        → IsGlobal image.instructions x ⊎ (function_of image.instructions s.place ≡ function_of image.instructions k) }
{}

/// Behind an instruction that ends no block the next one is run, where nothing more is seen but the result; a branch leads to a
/// Label of the same function, at which nothing more is seen.
pub fn what_is_run_next()
    ensures behind { (image : Image) → Valid image → (k : ℕ) (run : IsRun image.instructions k) → is_ending run.instruction.op ≡ false
        → Next image.instructions k run.instruction }
    ensures branch { (image : Image) → Valid image → (k : ℕ) (run : IsRun image.instructions k) (l : ℕ) → run.instruction.op ≡ Branch
        → run.instruction.operands ≡ l ∷ [] → Target image.instructions k l }
    ensures either { (image : Image) → Valid image → (k : ℕ) (run : IsRun image.instructions k) (c one other : ℕ)
        → run.instruction.op ≡ BranchConditional → run.instruction.operands ≡ c ∷ one ∷ other ∷ []
        → Target image.instructions k one × Target image.instructions k other }
{}

/// Functions begin with their parameters and a Label, the entry with its Label alone. A call is of a function with arguments of
/// the types of its parameters, and never leads back to itself; a return gives back what the function's type says.
pub fn where_functions_begin_and_end()
    ensures begun { (image : Image) → Valid image → (f : ℕ) → is_function image.instructions f ≡ true → Begun image.instructions f }
    ensures entry { (image : Image) → Valid image → Begins image.instructions }
    ensures parameters { (image : Image) → Valid image → (f : ℕ) → is_function image.instructions f ≡ true → (j t : ℕ)
        → slice_get (parameter_types image.instructions f) j ≡ Some t → is_parameter_type image.instructions t ≡ true }
    ensures result_type { (image : Image) → Valid image → (f : ℕ) → is_function image.instructions f ≡ true
        → (is_void image.instructions (operand image.instructions f 0) || is_data image.instructions (operand image.instructions f 0)) ≡ true }
    ensures calls { (image : Image) → Valid image → (k : ℕ) (run : IsRun image.instructions k) (t r f : ℕ) (arguments : List ℕ)
        → run.instruction.op ≡ FunctionCall → run.instruction.operands ≡ t ∷ r ∷ f ∷ arguments
        → Calls image.instructions k t r f arguments }
    ensures nothing { (image : Image) → Valid image → (k : ℕ) (run : IsRun image.instructions k) → run.instruction.op ≡ Return
        → is_void image.instructions (context_at image.instructions k).result_type ≡ true }
    ensures given_back { (image : Image) → Valid image → (k : ℕ) (run : IsRun image.instructions k) (x : ℕ) → run.instruction.op ≡ ReturnValue
        → run.instruction.operands ≡ x ∷ [] → (is_data image.instructions (context_at image.instructions k).result_type ≡ true)
        × (has_type image.instructions x (context_at image.instructions k).result_type ≡ true) }
{}
