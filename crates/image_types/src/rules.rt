// Which rule on types an opcode has.

ghost use Rattle.std.specs.Prelude.{◌≡◌};
ghost use Rattle.image_types.specs.Rules.{rule_of};

use image_operands::Numbers;
use spirv_words::Op;

/// What is asked of the types of an instruction.
#[derive(Clone, Copy)]
pub enum Rule {
    /// Nothing.
    Free,
    Entry,
    Mode,
    Decoration,
    MemberDecoration,
    OfVector,
    OfArray,
    OfRuntimeArray,
    OfStruct,
    OfPointer,
    OfFunctionType,
    Truth,
    OfNumber,
    OfNull,
    OfFunction,
    Parameter,
    OfVariable,
    Loading,
    Storing,
    Chain,
    Constructing,
    Extracting,
    Bits,
    Unary,
    Binary(Numbers),
    Shift(Numbers),
    Comparison(Numbers),
    Logical,
    Negation,
    Call,
    Condition,
    Returning,
    ReturningValue,
}

/// The rule of an opcode.
pub fn rule_of(op: Op) -> Rule
    ensures { result ≡ rule_of op }
{
    match op {
        Op::EntryPoint => Rule::Entry,
        Op::ExecutionMode => Rule::Mode,
        Op::Decorate => Rule::Decoration,
        Op::MemberDecorate => Rule::MemberDecoration,
        Op::TypeVector => Rule::OfVector,
        Op::TypeArray => Rule::OfArray,
        Op::TypeRuntimeArray => Rule::OfRuntimeArray,
        Op::TypeStruct => Rule::OfStruct,
        Op::TypePointer => Rule::OfPointer,
        Op::TypeFunction => Rule::OfFunctionType,
        Op::ConstantTrue | Op::ConstantFalse => Rule::Truth,
        Op::Constant => Rule::OfNumber,
        Op::ConstantNull => Rule::OfNull,
        Op::Function => Rule::OfFunction,
        Op::FunctionParameter => Rule::Parameter,
        Op::FunctionCall => Rule::Call,
        Op::Variable => Rule::OfVariable,
        Op::Load => Rule::Loading,
        Op::Store => Rule::Storing,
        Op::AccessChain => Rule::Chain,
        Op::CompositeConstruct => Rule::Constructing,
        Op::CompositeExtract => Rule::Extracting,
        Op::Bitcast => Rule::Bits,
        Op::SNegate | Op::Not => Rule::Unary,
        Op::IAdd | Op::ISub | Op::IMul | Op::BitwiseOr | Op::BitwiseXor | Op::BitwiseAnd =>
            Rule::Binary(Numbers::Either),
        Op::SDiv | Op::SRem => Rule::Binary(Numbers::Ints),
        Op::UDiv | Op::UMod => Rule::Binary(Numbers::Uints),
        Op::ShiftLeftLogical => Rule::Shift(Numbers::Either),
        Op::ShiftRightArithmetic => Rule::Shift(Numbers::Ints),
        Op::ShiftRightLogical => Rule::Shift(Numbers::Uints),
        Op::IEqual | Op::INotEqual => Rule::Comparison(Numbers::Either),
        Op::SGreaterThan | Op::SGreaterThanEqual | Op::SLessThan | Op::SLessThanEqual =>
            Rule::Comparison(Numbers::Ints),
        Op::UGreaterThan | Op::UGreaterThanEqual | Op::ULessThan | Op::ULessThanEqual =>
            Rule::Comparison(Numbers::Uints),
        Op::LogicalEqual | Op::LogicalNotEqual => Rule::Logical,
        Op::LogicalNot => Rule::Negation,
        Op::BranchConditional => Rule::Condition,
        Op::Return => Rule::Returning,
        Op::ReturnValue => Rule::ReturningValue,
        _ => Rule::Free,
    }
}
