// Numbers of a range, as they begin.

ghost use Rattle.std.specs.Prelude.{◌≡◌, ◌≤◌, ◌<◌, ◌↔◌, ◌^◌, IsTrue};
ghost use Rattle.std.specs.Fmt.{decimal};
ghost use Rattle.run_buffers.specs.Parts.{Begins, Reaches};

/// Whether more digits take a number from `first` to below `past` into the range.
fn reaches(first: u64, past: u64, low: u32, high: u32) -> bool
    requires { 0 < first }
    ensures { IsTrue result ↔ Reaches first past low high }
{
    if first > high as u64 {
        false
    } else if (low as u64) < past {
        true
    } else {
        reaches(first * 10, past * 10, low, high)
    }
}

/// Whether a number of the range begins with the digits of this one.
pub fn begins(value: u64, low: u32, high: u32) -> bool
    requires range { low ≤ high }
    requires small { value < 2 ^ 40 }
    ensures begins { IsTrue result ↔ Begins low high (decimal value) }
    ensures below { IsTrue result → value ≤ high }
{
    if value == 0 {
        low == 0
    } else {
        reaches(value, value + 1, low, high)
    }
}
