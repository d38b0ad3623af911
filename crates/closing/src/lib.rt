// Closure (definition 2 of the paper): the local values put in, an atom's coefficients times them plus its constant leave a key. What
// stands in a Wait's slots goes into the slots of a job: its alternative count, the atom count of each node, and of each atom measure,
// operator as written, and key. A Wait's slots past a count are 0, and so their keys are.
#![tactic(auto, using(crate::proofs::Laws::laws))]

ghost use Rattle.std.specs.Prelude.{◌≡◌, ◌<◌};
ghost use Rattle.rules.specs.Limits.{coefficient_most, value_most};
ghost use Rattle.condition.specs.Measures.{AllIn};
ghost use Rattle.condition.specs.Closing.{key_at, put_closed};
ghost use Rattle.condition.specs.Slots.{closed_of};
ghost use Rattle.closing.specs.Slots.{given_of};

use condition::measure::sum_of;
use condition::slots::Conditions;
use wire::given::Given;

// The key of the atom in a slot: a sum within ±400,000,000 and a constant, so it stays within ±401,000,000.
pub fn key_of(given: &Given, slot: usize) -> i64
    requires fact_1 { slot < 16 }
    requires fact_2 { AllIn coefficient_most given.now.coefficients }
    requires fact_3 { AllIn value_most given.now.locals }
    requires fact_4 { AllIn value_most given.now.constant }
    ensures { result ≡ key_at given.now.coefficients given.now.locals given.now.constant slot }
{
    sum_of(&given.coefficients, slot * 4, &given.locals) + given.constant[slot]
}

// A Wait's condition closed, as the condition of a job.
pub fn close(conditions: &mut Conditions, given: &Given, count: u8, job: usize)
    requires fact_1 { job < 32 }
    requires fact_2 { AllIn coefficient_most given.now.coefficients }
    requires fact_3 { AllIn value_most given.now.locals }
    requires fact_4 { AllIn value_most given.now.constant }
    ensures { closed_of conditions.new ≡ put_closed job (closed_of conditions.old) (given_of count given.now) }
{
    let node = job * 4;
    let slot = job * 16;
    conditions.alternatives[job] = count;
    conditions.atoms[node..node + 4].copy_from_slice(&given.counts);
    conditions.measure[slot..slot + 16].copy_from_slice(&given.measure);
    conditions.operator[slot..slot + 16].copy_from_slice(&given.operator);
    let key = &mut conditions.key;
    for i in 0..16 {
        key[slot + i] = key_of(given, i);
    }
}
