// What an instruction defines.

ghost use Rattle.std.specs.Prelude.{◌≡◌};
ghost use Rattle.image_lookup.specs.Sorts.{sort_of, is_value_sort};

use spirv_words::Op;

/// What kind of thing an instruction defines.
#[derive(Clone, Copy)]
pub enum Sort {
    VoidType,
    BoolType,
    IntType,
    VectorType,
    ArrayType,
    RuntimeArrayType,
    StructType,
    PointerType,
    FunctionType,
    /// A Constant, which has a number.
    Number,
    /// A ConstantNull.
    Null,
    /// A Variable, whose value is a pointer.
    Holder,
    /// Any other value: a truth, a parameter, or what an instruction of a function gives.
    Computed,
    Callee,
    Block,
    /// Nothing: the instruction has no result.
    Nothing,
}

/// What an instruction of an opcode defines.
pub fn sort_of(op: Op) -> Sort
    ensures { result ≡ sort_of op }
{
    match op {
        Op::Name
        | Op::MemoryModel
        | Op::EntryPoint
        | Op::ExecutionMode
        | Op::Capability
        | Op::FunctionEnd
        | Op::Store
        | Op::Decorate
        | Op::MemberDecorate
        | Op::LoopMerge
        | Op::SelectionMerge
        | Op::Branch
        | Op::BranchConditional
        | Op::Return
        | Op::ReturnValue
        | Op::Unreachable => Sort::Nothing,
        Op::TypeVoid => Sort::VoidType,
        Op::TypeBool => Sort::BoolType,
        Op::TypeInt => Sort::IntType,
        Op::TypeVector => Sort::VectorType,
        Op::TypeArray => Sort::ArrayType,
        Op::TypeRuntimeArray => Sort::RuntimeArrayType,
        Op::TypeStruct => Sort::StructType,
        Op::TypePointer => Sort::PointerType,
        Op::TypeFunction => Sort::FunctionType,
        Op::Constant => Sort::Number,
        Op::ConstantNull => Sort::Null,
        Op::Variable => Sort::Holder,
        Op::Function => Sort::Callee,
        Op::Label => Sort::Block,
        _ => Sort::Computed,
    }
}

impl Sort {
    /// Whether it is a value, whose type is the instruction's first operand.
    pub fn is_value(self) -> bool
        ensures { result ≡ is_value_sort self }
    {
        match self {
            Sort::Number | Sort::Null | Sort::Holder | Sort::Computed => true,
            _ => false,
        }
    }
}
