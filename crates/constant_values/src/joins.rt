// Values that are made of two or three.

ghost use Rattle.std.specs.Prelude.{◌≡◌, IfOk};
ghost use Rattle.type_terms.specs.Values as values;

use std::alloc::AllocError;
use type_terms::Worth;

/// The second or the third, as the first says.
pub fn choose_worth(condition: Worth, x: Worth, y: Worth) -> Worth
    ensures { result ≡ values.choose_worth condition x y }
{
    match (condition, x, y) {
        (_, Worth::Unknown, _) => Worth::Unknown,
        (_, _, Worth::Unknown) => Worth::Unknown,
        (Worth::Truth(truth), x, y) => if truth { x } else { y },
        (Worth::Undefined, _, _) => Worth::Undefined,
        _ => Worth::Unknown,
    }
}

/// The words of both.
pub fn joined(x: Worth, y: Worth) -> Result<Worth, AllocError>
    ensures { IfOk result (λ made. made ≡ values.joined x y) }
{
    match (x, y) {
        (Worth::Words(is_unsigned, xs), Worth::Words(_, ys)) => {
            let mut words = xs;
            words.append(ys)?;
            Ok(Worth::Words(is_unsigned, words))
        }
        (Worth::Unknown, _) => Ok(Worth::Unknown),
        (_, Worth::Unknown) => Ok(Worth::Unknown),
        (Worth::Undefined, _) => Ok(Worth::Undefined),
        (_, Worth::Undefined) => Ok(Worth::Undefined),
        _ => Ok(Worth::Unknown),
    }
}
