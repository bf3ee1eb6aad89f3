// Where types in buffers end.

ghost use Rattle.std.specs.Prelude.{◌≡◌, true, false};
ghost use Rattle.run_plans.specs.Grounds.{is_near, AreNear, IsFar};
ghost use Rattle.run_rooms.specs.Valid.{IsOfValid};

use image_declarations::Declarations;

/// Whether 32 bits tell the end, in bytes, of the type that an instruction declares, if a buffer has it.
fn is_near(declarations: &Declarations, operands: &[u32]) -> bool
    ensures { result ≡ is_near declarations.now operands.now }
{
    match operands {
        [id, ..] => !declarations.is_reached(*id) || declarations.extent(*id) < 0x1_0000_0000,
        _ => true,
    }
}

/// Whether 32 bits tell the ends of all types that buffers have.
pub fn are_near(declarations: &Declarations) -> bool
    requires valid { IsOfValid declarations.now }
    ensures near { result ≡ true → AreNear declarations.now }
    ensures far { result ≡ false → IsFar declarations.now }
{
    for instruction in declarations.code() {
        if !is_near(declarations, instruction.operands.as_slice()) {
            return false;
        }
    }
    true
}
