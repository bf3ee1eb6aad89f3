// What an instruction of each opcode does.

ghost use Rattle.std.specs.Prelude.{◌≡◌};
ghost use Rattle.run_plans.specs.Kinds.{kind_of};

use flat_values::{Binary, Unary};
use spirv_words::Op;

/// What an instruction does, as far as its opcode tells.
#[derive(Clone, Copy)]
pub enum Kind {
    /// Goes on.
    Pass,
    Variable,
    Load,
    Store,
    Chain,
    Construct,
    Extract,
    /// Gives its operand's words as they are.
    Same,
    One(Unary),
    Two(Binary),
    /// Operates on its operands in the other order.
    Turned(Binary),
    Branch,
    Condition,
    Call,
    Return,
    GiveBack,
    Unreachable,
    /// Is not run.
    Never,
}

/// What an instruction of an opcode does.
pub fn kind_of(op: Op) -> Kind
    ensures { result ≡ kind_of op }
{
    match op {
        Op::Label | Op::LoopMerge | Op::SelectionMerge => Kind::Pass,
        Op::Variable => Kind::Variable,
        Op::Load => Kind::Load,
        Op::Store => Kind::Store,
        Op::AccessChain => Kind::Chain,
        Op::CompositeConstruct => Kind::Construct,
        Op::CompositeExtract => Kind::Extract,
        Op::Bitcast => Kind::Same,
        Op::SNegate => Kind::One(Unary::Negate),
        Op::Not => Kind::One(Unary::Not),
        Op::LogicalNot => Kind::One(Unary::Flip),
        Op::IAdd => Kind::Two(Binary::Add),
        Op::ISub => Kind::Two(Binary::Sub),
        Op::IMul => Kind::Two(Binary::Mul),
        Op::UDiv => Kind::Two(Binary::UDiv),
        Op::SDiv => Kind::Two(Binary::SDiv),
        Op::UMod => Kind::Two(Binary::UMod),
        Op::SRem => Kind::Two(Binary::SRem),
        Op::ShiftLeftLogical => Kind::Two(Binary::ShiftLeft),
        Op::ShiftRightLogical => Kind::Two(Binary::ShiftRight),
        Op::ShiftRightArithmetic => Kind::Two(Binary::ShiftRightSigned),
        Op::BitwiseAnd => Kind::Two(Binary::And),
        Op::BitwiseOr => Kind::Two(Binary::Or),
        Op::BitwiseXor => Kind::Two(Binary::Xor),
        Op::LogicalEqual | Op::IEqual => Kind::Two(Binary::Equal),
        Op::LogicalNotEqual | Op::INotEqual => Kind::Two(Binary::NotEqual),
        Op::ULessThan => Kind::Two(Binary::ULess),
        Op::ULessThanEqual => Kind::Two(Binary::ULessEqual),
        Op::SLessThan => Kind::Two(Binary::SLess),
        Op::SLessThanEqual => Kind::Two(Binary::SLessEqual),
        Op::UGreaterThan => Kind::Turned(Binary::ULess),
        Op::UGreaterThanEqual => Kind::Turned(Binary::ULessEqual),
        Op::SGreaterThan => Kind::Turned(Binary::SLess),
        Op::SGreaterThanEqual => Kind::Turned(Binary::SLessEqual),
        Op::Branch => Kind::Branch,
        Op::BranchConditional => Kind::Condition,
        Op::FunctionCall => Kind::Call,
        Op::Return => Kind::Return,
        Op::ReturnValue => Kind::GiveBack,
        Op::Unreachable => Kind::Unreachable,
        _ => Kind::Never,
    }
}
