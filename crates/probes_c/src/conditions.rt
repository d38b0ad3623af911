// The exports over `probes::conditions`.
ghost use Rattle.std.specs.Prelude.{◌≡◌, ◌<◌, pos, get_or};
ghost use Rattle.rules.specs.Limits.{coefficient_most, value_most, key_most};
ghost use Rattle.rules.specs.Condition.{compares, alternative_true, condition_true, identical};
ghost use Rattle.condition.specs.Measures.{AllIn, Ranges, now_at};
ghost use Rattle.condition.specs.Closed.{alternative_at, condition_at};

#[unsafe(no_mangle)]
pub extern "C" fn probe_compare(operator: u8, value: i64, key: i64) -> bool
    ensures { result ≡ compares operator value key }
{
    probes::conditions::probe_compare(operator, value, key)
}

#[unsafe(no_mangle)]
pub extern "C" fn probe_measure(coefficients: &[i64; 128], values: &[i64; 8], measure: usize) -> i64
    requires { (AllIn coefficient_most coefficients.now) × (AllIn value_most values.now) }
    ensures { result ≡ get_or (now_at coefficients.now values.now) measure (pos 0) }
{
    probes::conditions::probe_measure(coefficients, values, measure)
}

#[unsafe(no_mangle)]
pub extern "C" fn probe_alternative_true(
    coefficients: &[i64; 128],
    values: &[i64; 8],
    atoms: &[u8; 128],
    measure: &[u8; 512],
    operator: &[u8; 512],
    key: &[i64; 512],
    node: usize,
) -> bool
    requires { (node < 128) × (Ranges coefficients.now values.now key.now) }
    ensures { result ≡ alternative_true (now_at coefficients.now values.now)
        (alternative_at atoms.now measure.now operator.now key.now node) }
{
    probes::conditions::probe_alternative_true(
        coefficients,
        values,
        atoms,
        measure,
        operator,
        key,
        node,
    )
}

#[unsafe(no_mangle)]
pub extern "C" fn probe_condition_true(
    coefficients: &[i64; 128],
    values: &[i64; 8],
    alternatives: &[u8; 32],
    atoms: &[u8; 128],
    measure: &[u8; 512],
    operator: &[u8; 512],
    key: &[i64; 512],
    job: usize,
) -> bool
    requires { (job < 32) × (Ranges coefficients.now values.now key.now) }
    ensures { result ≡ condition_true (now_at coefficients.now values.now)
        (condition_at alternatives.now atoms.now measure.now operator.now key.now job) }
{
    probes::conditions::probe_condition_true(
        coefficients,
        values,
        alternatives,
        atoms,
        measure,
        operator,
        key,
        job,
    )
}

#[unsafe(no_mangle)]
pub extern "C" fn probe_same_condition(
    alternatives: &[u8; 32],
    atoms: &[u8; 128],
    measure: &[u8; 512],
    operator: &[u8; 512],
    key: &[i64; 512],
    one: usize,
    other: usize,
) -> bool
    requires { (one < 32) × ((other < 32) × (AllIn key_most key.now)) }
    ensures { result ≡ identical (condition_at alternatives.now atoms.now measure.now operator.now key.now one)
        (condition_at alternatives.now atoms.now measure.now operator.now key.now other) }
{
    probes::conditions::probe_same_condition(
        alternatives,
        atoms,
        measure,
        operator,
        key,
        one,
        other,
    )
}
