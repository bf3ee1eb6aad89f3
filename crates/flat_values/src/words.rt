// Arithmetic on 32-bit words.

ghost use Rattle.std.specs.Prelude.{◌≡◌};
ghost use Rattle.behavior.specs.Operations.{word_add, word_sub, word_mul, word_negate, word_not, word_udiv, word_umod, word_sdiv, word_srem, word_slt, word_sle, word_shl, word_shr, word_sar, word_and, word_or, word_xor};

/// The low 32 bits of the sum (SPIR-V 1.5, OpIAdd).
#[inline]
pub fn add(a: u32, b: u32) -> u32
    ensures { result ≡ word_add a b }
{
    a.wrapping_add(b)
}

/// The low 32 bits of the difference (SPIR-V 1.5, OpISub).
#[inline]
pub fn sub(a: u32, b: u32) -> u32
    ensures { result ≡ word_sub a b }
{
    a.wrapping_sub(b)
}

/// The low 32 bits of the product (SPIR-V 1.5, OpIMul).
#[inline]
pub fn mul(a: u32, b: u32) -> u32
    ensures { result ≡ word_mul a b }
{
    a.wrapping_mul(b)
}

/// What added to the word gives 0 (SPIR-V 1.5, OpSNegate).
#[inline]
pub fn negate(a: u32) -> u32
    ensures { result ≡ word_negate a }
{
    0u32.wrapping_sub(a)
}

/// Each bit turned over (SPIR-V 1.5, OpNot).
#[inline]
pub fn complement(a: u32) -> u32
    ensures { result ≡ word_not a }
{
    !a
}

/// The quotient, if the divisor is not 0 (SPIR-V 1.5, OpUDiv).
#[inline]
pub fn udiv(a: u32, b: u32) -> Option<u32>
    ensures { result ≡ word_udiv a b }
{
    if b == 0 { None } else { Some(a / b) }
}

/// The remainder, if the divisor is not 0 (SPIR-V 1.5, OpUMod).
#[inline]
pub fn umod(a: u32, b: u32) -> Option<u32>
    ensures { result ≡ word_umod a b }
{
    if b == 0 { None } else { Some(a % b) }
}

/// The quotient of two ints, rounded towards 0, if the divisor is not 0 and the quotient is an int (SPIR-V 1.5, OpSDiv).
#[inline]
pub fn sdiv(a: u32, b: u32) -> Option<u32>
    ensures { result ≡ word_sdiv a b }
{
    if b == 0 || a == 0x8000_0000 && b == u32::MAX {
        None
    } else {
        Some((a.cast_signed() / b.cast_signed()).cast_unsigned())
    }
}

/// The remainder of two ints, with the sign of the first, where they can be divided (SPIR-V 1.5, OpSRem).
#[inline]
pub fn srem(a: u32, b: u32) -> Option<u32>
    ensures { result ≡ word_srem a b }
{
    if b == 0 || a == 0x8000_0000 && b == u32::MAX {
        None
    } else {
        Some((a.cast_signed() % b.cast_signed()).cast_unsigned())
    }
}

/// Bits moved up, if by less than 32 (SPIR-V 1.5, OpShiftLeftLogical).
#[inline]
pub fn shl(a: u32, amount: u32) -> Option<u32>
    ensures { result ≡ word_shl a amount }
{
    if amount < 32 { Some(a << amount) } else { None }
}

/// Bits moved down, zeros above, if by less than 32 (SPIR-V 1.5, OpShiftRightLogical).
#[inline]
pub fn shr(a: u32, amount: u32) -> Option<u32>
    ensures { result ≡ word_shr a amount }
{
    if amount < 32 { Some(a >> amount) } else { None }
}

/// Bits moved down, the sign above, if by less than 32 (SPIR-V 1.5, OpShiftRightArithmetic).
#[inline]
pub fn sar(a: u32, amount: u32) -> Option<u32>
    ensures { result ≡ word_sar a amount }
{
    if amount >= 32 {
        None
    } else if a < 0x8000_0000 {
        Some(a >> amount)
    } else {
        Some(u32::MAX - ((u32::MAX - a) >> amount))
    }
}

/// Bits that both have (SPIR-V 1.5, OpBitwiseAnd).
#[inline]
pub fn and(a: u32, b: u32) -> u32
    ensures { result ≡ word_and a b }
{
    a & b
}

/// Bits that either has (SPIR-V 1.5, OpBitwiseOr).
#[inline]
pub fn or(a: u32, b: u32) -> u32
    ensures { result ≡ word_or a b }
{
    a | b
}

/// Bits that one of them has (SPIR-V 1.5, OpBitwiseXor).
#[inline]
pub fn xor(a: u32, b: u32) -> u32
    ensures { result ≡ word_xor a b }
{
    a ^ b
}

/// Whether the first is less than the second, as ints (SPIR-V 1.5, OpSLessThan).
#[inline]
pub fn slt(a: u32, b: u32) -> bool
    ensures { result ≡ word_slt a b }
{
    a.cast_signed() < b.cast_signed()
}

/// Whether the first is at most the second, as ints (SPIR-V 1.5, OpSLessThanEqual).
#[inline]
pub fn sle(a: u32, b: u32) -> bool
    ensures { result ≡ word_sle a b }
{
    a.cast_signed() <= b.cast_signed()
}
