// A measure's value: the sum of coefficient times shared value over the 8 variables; and sums of such products.
ghost use Rattle.std.specs.Prelude.{◌≡◌, ◌+◌, ◌≤◌, pos, get_or, length};
ghost use Rattle.rules.specs.Limits.{coefficient_most, value_most};
ghost use Rattle.integers.specs.Sums.{sum};
ghost use Rattle.condition.specs.Measures.{AllIn, term};
ghost use Rattle.condition.specs.Slots.{now_of};

use crate::slots::Shared;

// The sum of coefficient times value, for the coefficients from a place on: of a measure, or of a Wait's atom with its local values. It
// stays within ±800,000,000, so nothing wraps. No `zip` and `sum`: tried, and that no sum along the way wraps did not close.
pub fn sum_of<const N: usize>(coefficients: &[i64], first: usize, values: &[i64; N]) -> i64
    requires fact_1 { N ≤ 8 }
    requires fact_2 { first + N ≤ length coefficients.now }
    requires fact_3 { AllIn coefficient_most coefficients.now }
    requires fact_4 { AllIn value_most values.now }
    ensures { result ≡ sum (term coefficients.now first values.now) N }
{
    let mut sum: i64 = 0;
    for i in 0..N {
        sum += coefficients[first + i] * values[i];
    }
    sum
}

impl Shared {
    // Every reader of a measure goes through here. No atom of a room names a measure past 15; such a one would be 0, which costs less to
    // say than to carry the fact through every caller.
    pub fn measure_of(&self, measure: usize) -> i64
        requires fact_1 { AllIn coefficient_most self.now.coefficients }
        requires fact_2 { AllIn value_most self.now.values }
        ensures { result ≡ get_or (now_of self.now) measure (pos 0) }
    {
        if 16 <= measure {
            return 0;
        }
        sum_of(&self.coefficients, measure * 8, &self.values)
    }
}
