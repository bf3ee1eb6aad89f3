// Laws of valid images, each the contract of a function that does nothing.

ghost use Rattle.std.specs.Prelude.{◌≡◌, ◌≢◌, ◌⊎◌, ℕ, ◌+◌, ◌<◌, ◌^◌, Bool, true, false, nat_eq, List, slice_get, Some, None};
ghost use Rattle.std.specs.List.{All};
ghost use Rattle.behavior.specs.Values.{Value, Word, Found, Outside, part, put_part};
ghost use Rattle.spirv_words.specs.declared.images.Instruction.{Instruction};
ghost use Rattle.spirv_words.specs.declared.images.Image.{Image};
ghost use Rattle.spirv_words.specs.Machine.{Shape, Nothing, Truths, Words, Repeated, Unbounded, Fields, NoField, Field, PointerTo, Operand, Plain, InBuffer, Local, IsType, IsValue, meaning_of, is_function, result_of, or_zero, decoration, zero_of, is_signed, place_of};
ghost use Rattle.spirv_words.specs.Runs.{signed, initial};
ghost use Rattle.spirv_words.specs.Step.{field_at};
ghost use Rattle.flat_values.specs.Flat.{flat, IsOf, IsData};
ghost use Rattle.flat_values.specs.Pieces.{piece, At, OutOfRange};
ghost use Rattle.image_lookup.specs.Lookups.{sort, operand, is_value};
ghost use Rattle.image_places.specs.Places.{function_of};
ghost use Rattle.image_declarations.specs.Decorations.{stride_of, offset_of};
ghost use Rattle.image_declarations.specs.Types.{length_of};
ghost use Rattle.image_declarations.specs.Holdings.{is_data, is_unbounded, extent, is_reached};
ghost use Rattle.image_operands.specs.Operators.{is_int};
ghost use Rattle.image_operands.specs.Memory.{member_at, constant_number};
ghost use Rattle.image_operands.specs.Marks.{is_buffer};
ghost use Rattle.image_types.specs.Functions.{is_void};
ghost use Rattle.image_scopes.specs.Scopes.{IsGlobal};
ghost use Rattle.spirv_check.specs.Valid.{Valid};
ghost use Rattle.image_facts.specs.Alike.{IsLike, reach, IsSpaced};
ghost use Rattle.image_facts.specs.Operands.{globals_of, shape, type_id, is_local, root_shape, Suits};
ghost use Rattle.image_facts.specs.Shaped.{IsRepeated, IsUnbounded, IsFields, HasData};

use image_lookup::Sort;

/// What a declaration makes of its result's id, read with all declarations, is what the id stands for.
pub fn declarations_stand()
    ensures types { (image : Image) (k r : ℕ) (i : Instruction) (s : Shape) → Valid image → slice_get image.instructions k ≡ Some i
        → function_of image.instructions k ≡ 0 → is_function i.op ≡ false → result_of i.op i.operands ≡ Some r
        → meaning_of image.instructions (globals_of image.instructions) i.op i.operands ≡ IsType s → shape image.instructions r ≡ Some s }
    ensures values { (image : Image) (k r : ℕ) (i : Instruction) (o : Operand) → Valid image → slice_get image.instructions k ≡ Some i
        → function_of image.instructions k ≡ 0 → is_function i.op ≡ false → result_of i.op i.operands ≡ Some r
        → meaning_of image.instructions (globals_of image.instructions) i.op i.operands ≡ IsValue o
        → (globals_of image.instructions).ids r ≡ Some o }
{}

/// A type has the shape that its sort, its operands and its decorations say; for a pointer, where what it leads to has a shape.
pub fn types_have_shapes()
    ensures void { (image : Image) (t : ℕ) → Valid image → sort image.instructions t ≡ Sort.VoidType → shape image.instructions t ≡ Some Nothing }
    ensures bool { (image : Image) (t : ℕ) → Valid image → sort image.instructions t ≡ Sort.BoolType → shape image.instructions t ≡ Some Truths }
    ensures int { (image : Image) (t : ℕ) → Valid image → sort image.instructions t ≡ Sort.IntType
        → shape image.instructions t ≡ Some (Words (nat_eq (operand image.instructions t 2) 1)) }
    ensures vector { (image : Image) (t : ℕ) → Valid image → sort image.instructions t ≡ Sort.VectorType
        → IsRepeated image.instructions t (operand image.instructions t 2) 4 }
    ensures array { (image : Image) (t : ℕ) → Valid image → sort image.instructions t ≡ Sort.ArrayType
        → IsRepeated image.instructions t (length_of image.instructions (operand image.instructions t 2)) (stride_of image.instructions t) }
    ensures unbounded { (image : Image) (t : ℕ) → Valid image → sort image.instructions t ≡ Sort.RuntimeArrayType
        → IsUnbounded image.instructions t }
    ensures fields { (image : Image) (t : ℕ) → Valid image → sort image.instructions t ≡ Sort.StructType → IsFields image.instructions t }
    ensures pointer { (image : Image) (t : ℕ) (s : Shape) → Valid image → sort image.instructions t ≡ Sort.PointerType
        → shape image.instructions (operand image.instructions t 2) ≡ Some s → shape image.instructions t ≡ Some (PointerTo s) }
    ensures values { (image : Image) (t : ℕ) → Valid image → is_data image.instructions t ≡ true → HasData image.instructions t }
{}

/// The fields of a struct are its members, each at its Offset.
pub fn members_are_fields()
    ensures member { (code : List Instruction) (t n m : ℕ) (f : IsFields code t) → member_at code t n ≡ Some m
        → (s : Shape) × (field_at f.fields n ≡ Some (offset_of code t n, s)) × (shape code m ≡ Some s) }
    ensures no_more { (code : List Instruction) (t n : ℕ) (f : IsFields code t) → member_at code t n ≡ None → field_at f.fields n ≡ None }
{}

/// A value that is defined outside of functions stands for an operand of its type, and a number for itself. The machine takes a
/// value for an int where its type is int.
pub fn values_stand_for_operands()
    ensures global { (image : Image) (x : ℕ) → Valid image → IsGlobal image.instructions x
        → (o : Operand) × ((globals_of image.instructions).ids x ≡ Some o) × Suits image.instructions o (type_id image.instructions x) }
    ensures never_void { (image : Image) (x : ℕ) → Valid image → IsGlobal image.instructions x
        → is_void image.instructions (type_id image.instructions x) ≡ false }
    ensures number { (image : Image) (x n : ℕ) → Valid image → is_int image.instructions (type_id image.instructions x) ≡ true
        → constant_number image.instructions x ≡ Some n → (globals_of image.instructions).ids x ≡ Some (Plain (Word n)) }
    ensures sign { (code : List Instruction) (x : ℕ) → is_value code x ≡ true
        → signed code (globals_of code) x ≡ is_signed (shape code (type_id code x)) }
{}

/// A variable of a function stands in a function, holds data, and begins as its zero.
pub fn variables_hold_data()
    ensures inside { (image : Image) (x : ℕ) → Valid image → is_local image.instructions x ≡ true
        → (p : ℕ) × (place_of image.instructions x 0 ≡ Some p) × (function_of image.instructions p ≢ 0) }
    ensures holds { (image : Image) (x : ℕ) → Valid image → is_local image.instructions x ≡ true
        → (s : Shape) × IsData s × ((level : ℕ) → root_shape image.instructions (Local level x) ≡ Some s)
        × (initial image.instructions (globals_of image.instructions) x ≡ zero_of s) }
{}

/// A buffer's variable stands for the buffer of its set and binding, which no other variable has; the parts of its type stand at
/// whole words, and none reaches into the next.
pub fn buffers_are_spaced()
    ensures variable { (image : Image) (x : ℕ) → Valid image → is_buffer image.instructions x ≡ true
        → (s : Shape) × (shape image.instructions (operand image.instructions (type_id image.instructions x) 2) ≡ Some s) × IsSpaced s
        × ((globals_of image.instructions).ids x
        ≡ Some (InBuffer (or_zero (decoration image.instructions x 34)) (or_zero (decoration image.instructions x 33)) 0 s)) }
    ensures part { (image : Image) (t : ℕ) (s : Shape) → Valid image → is_reached image.instructions t ≡ true
        → shape image.instructions t ≡ Some s → IsSpaced s × (reach s ≡ extent image.instructions t) }
    ensures storage { (image : Image) (x : ℕ) → Valid image → is_buffer image.instructions x ≡ true → operand image.instructions x 2 ≡ 12
        → (stride : ℕ) × (of : Shape) × (shape image.instructions (operand image.instructions (type_id image.instructions x) 2)
        ≡ Some (Fields (Field 0 (Unbounded stride of) NoField))) }
    ensures one { (image : Image) (x y : ℕ) → Valid image → is_buffer image.instructions x ≡ true → is_buffer image.instructions y ≡ true
        → or_zero (decoration image.instructions x 34) ≡ or_zero (decoration image.instructions y 34)
        → or_zero (decoration image.instructions x 33) ≡ or_zero (decoration image.instructions y 33) → x ≡ y }
{}

/// Where a shape has a piece at a path, a value like the shape has a part like that piece there, which a value like it replaces;
/// where the path is out of range, so it is for the value. Words of 32 bits make such a value one of the shape.
pub fn values_have_the_parts_of_their_shapes()
    ensures part { (v : Value) (s of : Shape) (path : List ℕ) (from place : ℕ) → IsLike v s → piece s path from ≡ At place of
        → (w : Value) × (part v path ≡ Found w) × IsLike w of }
    ensures no_part { (v : Value) (s : Shape) (path : List ℕ) (from : ℕ) → IsLike v s → piece s path from ≡ OutOfRange
        → part v path ≡ Outside }
    ensures replaced { (v new : Value) (s of : Shape) (path : List ℕ) (from place : ℕ) → IsLike v s → IsLike new of
        → piece s path from ≡ At place of → (w : Value) × (put_part v path new ≡ Found w) × IsLike w s }
    ensures not_replaced { (v new : Value) (s : Shape) (path : List ℕ) (from : ℕ) → IsLike v s → piece s path from ≡ OutOfRange
        → put_part v path new ≡ Outside }
    ensures zero { (s : Shape) → IsData s → IsLike (zero_of s) s }
    ensures of_words { (v : Value) (s : Shape) → IsLike v s → All (λ w. w < 2 ^ 32) (flat v) → IsOf v s }
{}
