//! The totals of numbers.

ghost use Rattle.std.specs.Prelude.{◌≡◌, ◌<◌, ℤ, List, [], ◌∷◌, ◌++◌};
ghost use Rattle.aggregation.specs.Totals.{range_of, totals_of, IsNumber, IsWithin, Adds};
ghost use Rattle.checkpoint_io.specs.declared.heads.TheConstants.{MAX_LOG};

/// The totals of numbers.
#[derive(Clone, Copy, Debug, PartialEq, Eq)]
pub struct Totals {
    /// How many there are.
    pub count: u64,
    /// The least and the greatest of them. There is none exactly where the count is 0.
    pub range: Option<(i128, i128)>,
    pub sum: i128,
}

// The least and the greatest of some numbers and one more.
fn widened(range: Option<(i128, i128)>, number: i128) -> Option<(i128, i128)>
    ensures { (numbers : List ℤ) → range ≡ range_of numbers → result ≡ range_of (numbers ++ number ∷ []) }
{
    match range {
        Some((least, greatest)) => Some((least.min(number), greatest.max(number))),
        None => Some((number, number)),
    }
}

impl Totals {
    /// The totals of no numbers.
    pub(crate) fn none() -> Totals
        ensures { result ≡ totals_of [] }
    {
        Totals {
            count: 0,
            range: None,
            sum: 0,
        }
    }

    /// The totals of these numbers and one more.
    pub(crate) fn with(self, number: i128) -> Totals
        requires few { self.count < MAX_LOG }
        requires within { IsWithin self.count self.sum }
        requires is_number { IsNumber number }
        ensures { Adds self result (number ∷ []) 1 }
    {
        Totals {
            count: self.count + 1,
            range: widened(self.range, number),
            sum: self.sum + number,
        }
    }
}
