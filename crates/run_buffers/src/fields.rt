// What a number of a line may be, and what stands behind it.

ghost use Rattle.std.specs.Prelude.{◌≤◌, ◌<◌, ◌^◌};

/// What stands behind a number.
#[derive(Clone, Copy)]
pub enum Separator {
    Space,
    LineFeed,
    /// Behind a count of words: a line feed where it is 0, and else a space.
    BehindCount,
}

/// The numbers that may stand at a place, and what stands behind them.
#[derive(Clone, Copy)]
pub struct Field {
    pub low: u32,
    pub high: u32,
    pub separator: Separator,
    ghost ordered: { low ≤ high },
    ghost narrow: { high < 2 ^ 32 },
}

/// What one more byte makes of the digits of a number: more digits, the end of the number, or nothing.
pub enum Step {
    Digit(u32),
    End(u32),
    Wrong,
}
