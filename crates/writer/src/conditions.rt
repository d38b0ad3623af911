// A condition as it is given, out of a Wait's slots into the bytes of a record that is being made.
ghost use Rattle.std.specs.Prelude.{◌+◌, ◌<◌, ◌≤◌, length};
ghost use Rattle.rules.specs.Writer.{write_counted, write_atom, write_condition};
ghost use Rattle.writer.specs.Puts.{Puts};
ghost use Rattle.writer.specs.Givens.{atom_of, alternative_of, condition_of};

use crate::field::{put_below, put_field, put_signed};
use crate::numbers::put_numbers;
use fields::refusal::Refusal;
use wire::given::Given;

fn put_atom(
    out: &mut [u8],
    at: usize,
    given: &Given,
    measures: u64,
    slot: usize,
) -> Result<usize, Refusal>
    requires fact_1 { slot < 16 }
    requires fact_2 { at + 35 ≤ length out.old }
    requires fact_3 { measures < 4_294_967_296 }
    ensures { Puts (write_atom measures (atom_of given.now slot)) out.old out.new at result }
{
    let measure = u64::from(given.measure[slot]);
    let operator = u64::from(given.operator[slot]);
    let row = &given.coefficients[slot * 4..slot * 4 + 4];
    let after_measure = put_below(out, at, measure, measures)?;
    let after_operator = put_field(out, after_measure, operator, 1, 6, Refusal::Unknown)?;
    let after_row = put_numbers(out, after_operator, row, 100)?;
    put_signed(out, after_row, given.constant[slot], 1_000_000)
}

// Alternative i: its atom count, then its atoms, which stand from slot 4 * i on.
fn put_alternative(
    out: &mut [u8],
    at: usize,
    given: &Given,
    measures: u64,
    i: usize,
) -> Result<usize, Refusal>
    requires fact_1 { i < 4 }
    requires fact_2 { at + 145 ≤ length out.old }
    requires fact_3 { measures < 4_294_967_296 }
    ensures { Puts (write_counted (write_atom measures) (alternative_of given.now i)) out.old out.new at result }
{
    let count = given.counts[i];
    let mut next = put_field(out, at, u64::from(count), 1, 4, Refusal::OutOfRange)?;
    for k in 0..usize::from(count) {
        next = put_atom(out, next, given, measures, i * 4 + k)?;
    }
    Ok(next)
}

// A whole condition: its alternative count, then its alternatives.
pub fn put_condition(
    out: &mut [u8],
    at: usize,
    given: &Given,
    measures: u64,
    count: u64,
) -> Result<usize, Refusal>
    requires fact_1 { at + 585 ≤ length out.old }
    requires fact_2 { measures < 4_294_967_296 }
    ensures { Puts (write_condition measures (condition_of given.now count)) out.old out.new at result }
{
    let mut next = put_field(out, at, count, 1, 4, Refusal::OutOfRange)?;
    for i in 0..count as usize {
        next = put_alternative(out, next, given, measures, i)?;
    }
    Ok(next)
}
