// Numbers, texts and counts.

ghost use Rattle.std.specs.Prelude.{◌≡◌, ◌≤◌, ◌<◌, ◌+◌, ◌%◌, ◌++◌, length, IfOk, Ok, Err, OnOk, OnErr};
ghost use Rattle.form_grammar.specs.Trees.{text, spelling, spelled_number, digits};
ghost use Rattle.form_grammar.specs.Numbers as spec;
ghost use Rattle.form_grammar.specs.Numbers.{after};
ghost use Rattle.form_grammar.specs.Reading.{Answers};

use crate::Stop;
use slang_names::FormCode;
use std::alloc::AllocError;

/// The greatest number.
const GREATEST: u32 = 4_294_967_295;
/// The greatest length of a text, in bytes.
const TEXT: u32 = 255;
/// The most items of a list.
const ITEMS: u32 = 65_536;

fn short() -> Stop
    ensures { result ≡ record { code = FormCode.Short; left = 0 } }
{
    Stop {
        code: FormCode::Short,
        left: 0,
    }
}

/// Digits by 128 of a number from 1 to the limit, the lowest first, and the bytes behind them.
#[tactic(auto, unfolding(crate::specs::Numbers::digits_at, crate::specs::Numbers::after))]
fn digits_at(bytes: &[u8], limit: u32) -> Result<(u32, &[u8]), Stop>
    requires { spec.IsLimit limit }
    ensures read { Answers (λ x. (x.0, x.1.now)) result (spec.digits_at limit bytes.now) }
    ensures within { IfOk result (λ x. x.0 ≤ limit) }
{
    let [digit, rest @ ..] = bytes else {
        return Err(short());
    };
    let refused = Stop {
        code: FormCode::NotCanonical,
        left: bytes.len(),
    };
    let digit = *digit as u32;
    if digit < 128 {
        if digit <= limit && digit != 0 {
            Ok((digit, rest))
        } else {
            Err(refused)
        }
    } else if limit < 128 {
        Err(refused)
    } else {
        let (high, rest) = digits_at(rest, limit / 128)?;
        Ok((digit - 128 + 128 * high, rest))
    }
}

/// The number at the front, and the bytes behind it. A number stands in its shortest spelling.
#[tactic(auto, unfolding(crate::specs::Numbers::number_at))]
pub fn number_at(bytes: &[u8]) -> Result<(u32, &[u8]), Stop>
    ensures { Answers (λ x. (x.0, x.1.now)) result (spec.number_at bytes.now) }
{
    match bytes {
        [] => Err(short()),
        [0, rest @ ..] => Ok((0, rest)),
        _ => digits_at(bytes, GREATEST),
    }
}

/// The text at the front, of 1 to 255 bytes, and the bytes behind it.
#[tactic(auto, unfolding(crate::specs::Numbers::text_at, crate::specs::Numbers::after))]
pub fn text_at(bytes: &[u8]) -> Result<(&[u8], &[u8]), Stop>
    ensures { Answers (λ x. (x.0.now, x.1.now)) result (spec.text_at bytes.now) }
{
    let (len, rest) = digits_at(bytes, TEXT)?;
    let len = len as usize;
    if rest.len() < len {
        return Err(short());
    }
    Ok(rest.split_at(len))
}

/// The count of a list at the front, at most 65,536, and the bytes behind it.
#[tactic(auto, unfolding(crate::specs::Numbers::count_at, crate::specs::Numbers::after))]
pub fn count_at(bytes: &[u8]) -> Result<(u32, &[u8]), Stop>
    ensures { Answers (λ x. (x.0, x.1.now)) result (spec.count_at bytes.now) }
{
    let (count, rest) = number_at(bytes)?;
    if count > ITEMS {
        return Err(Stop {
            code: FormCode::FormLimit,
            left: rest.len() + 1,
        });
    }
    Ok((count, rest))
}

/// A digit by 128 that is not the last.
fn digit(n: u32) -> u8
    ensures { result ≡ n % 128 + 128 }
{
    (n % 128 + 128) as u8
}

/// Appends the shortest spelling of a number: digits by 128, the lowest first, each but the last with its top
/// bit set. After a refusal nothing is changed.
pub fn put_num(out: &mut Vec<u8>, n: u32) -> Result<(), AllocError>
    ensures ok { OnOk result (out.new.items ≡ out.old.items ++ spelled_number n) }
    ensures err { OnErr result (out.new.items ≡ out.old.items) }
{
    let second = n / 128;
    let third = second / 128;
    let fourth = third / 128;
    let fifth = fourth / 128;
    if n < 128 {
        out.extend_from_slice(&[n as u8])
    } else if second < 128 {
        out.extend_from_slice(&[digit(n), second as u8])
    } else if third < 128 {
        out.extend_from_slice(&[digit(n), digit(second), third as u8])
    } else if fourth < 128 {
        out.extend_from_slice(&[digit(n), digit(second), digit(third), fourth as u8])
    } else {
        out.extend_from_slice(&[
            digit(n),
            digit(second),
            digit(third),
            digit(fourth),
            fifth as u8,
        ])
    }
}

/// Appends at most so many digits of a number, the lowest first.
fn put_digits(out: &mut Vec<u8>, n: usize, most: u8) -> Result<(), AllocError>
    ensures { OnOk result (out.new.items ≡ out.old.items ++ digits most n) }
{
    if most == 0 {
        return Ok(());
    }
    if n < 128 {
        out.push(n as u8)?;
        return Ok(());
    }
    out.push((n % 128 + 128) as u8)?;
    put_digits(out, n / 128, most - 1)?;
    Ok(())
}

/// Appends the count of a list.
pub fn put_count(out: &mut Vec<u8>, count: usize) -> Result<(), AllocError>
    ensures { OnOk result (out.new.items ≡ out.old.items ++ spelled_number count) }
{
    put_digits(out, count, 10)
}

/// Appends the spelling of a text: its length and its bytes. One that can be read again has 1 to 255 bytes.
#[tactic(auto, using(std::proofs::lemmas::List::append_assoc))]
pub fn put_text(out: &mut Vec<u8>, bytes: &[u8]) -> Result<(), AllocError>
    ensures { OnOk result (out.new.items ≡ out.old.items ++ spelling (text bytes.now)) }
{
    put_count(out, bytes.len())?;
    out.extend_from_slice(bytes)?;
    Ok(())
}
