// Closed conditions in lent slots: an operator, a measure's value, truth, and identity. Each requires what the function under it does, and
// the caller answers for it.
ghost use Rattle.std.specs.Prelude.{◌≡◌, ◌<◌, pos, get_or};
ghost use Rattle.rules.specs.Limits.{coefficient_most, value_most, key_most};
ghost use Rattle.rules.specs.Condition.{compares, alternative_true, condition_true, identical};
ghost use Rattle.condition.specs.Measures.{AllIn, Ranges, now_at};
ghost use Rattle.condition.specs.Closed.{alternative_at, condition_at};

use crate::lent::{conditions_of, shared_of};
use condition::compare::compare;
use identity::same_condition;

pub fn probe_compare(operator: u8, value: i64, key: i64) -> bool
    ensures { result ≡ compares operator value key }
{
    compare(operator, value, key)
}

pub fn probe_measure(coefficients: &[i64; 128], values: &[i64; 8], measure: usize) -> i64
    requires { (AllIn coefficient_most coefficients.now) × (AllIn value_most values.now) }
    ensures { result ≡ get_or (now_at coefficients.now values.now) measure (pos 0) }
{
    shared_of(coefficients, values).measure_of(measure)
}

pub fn probe_alternative_true(
    coefficients: &[i64; 128],
    values: &[i64; 8],
    atoms: &[u8; 128],
    measure: &[u8; 512],
    operator: &[u8; 512],
    key: &[i64; 512],
    node: usize,
) -> bool
    requires { (node < 128) × (Ranges coefficients.now values.now key.now) }
    ensures { result ≡ alternative_true (now_at coefficients.now values.now)
        (alternative_at atoms.now measure.now operator.now key.now node) }
{
    let shared = shared_of(coefficients, values);
    let conditions = conditions_of(&[0; 32], atoms, measure, operator, key);
    conditions.alternative_true(&shared, node)
}

pub fn probe_condition_true(
    coefficients: &[i64; 128],
    values: &[i64; 8],
    alternatives: &[u8; 32],
    atoms: &[u8; 128],
    measure: &[u8; 512],
    operator: &[u8; 512],
    key: &[i64; 512],
    job: usize,
) -> bool
    requires { (job < 32) × (Ranges coefficients.now values.now key.now) }
    ensures { result ≡ condition_true (now_at coefficients.now values.now)
        (condition_at alternatives.now atoms.now measure.now operator.now key.now job) }
{
    let shared = shared_of(coefficients, values);
    let conditions = conditions_of(alternatives, atoms, measure, operator, key);
    conditions.condition_true(&shared, job)
}

pub fn probe_same_condition(
    alternatives: &[u8; 32],
    atoms: &[u8; 128],
    measure: &[u8; 512],
    operator: &[u8; 512],
    key: &[i64; 512],
    one: usize,
    other: usize,
) -> bool
    requires { (one < 32) × ((other < 32) × (AllIn key_most key.now)) }
    ensures { result ≡ identical (condition_at alternatives.now atoms.now measure.now operator.now key.now one)
        (condition_at alternatives.now atoms.now measure.now operator.now key.now other) }
{
    let conditions = conditions_of(alternatives, atoms, measure, operator, key);
    same_condition(&conditions, one, other)
}
