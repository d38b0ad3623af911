// The numbers of a Wait, after its head: four local values, alternative count, and for each alternative its atom count and its atoms:
// measure, operator, four coefficients, constant (document 01, "Bytes"). They go into the slots of src/given.rt.
ghost use Rattle.std.specs.Prelude.{◌≡◌, ◌+◌, ◌<◌, ◌≤◌, length, drop};
ghost use Rattle.rules.specs.Number.{times};
ghost use Rattle.rules.specs.Record.{atom, counted};
ghost use Rattle.fields.specs.Answers.{numbered};
ghost use Rattle.wire.specs.Into.{Into};
ghost use Rattle.wire.specs.WaitSlots.{put_atom, put_atoms, put_alternatives, no_locals, no_slots, numbers, ReadsBody, ReadsWait};
ghost use Rattle.wire.specs.Givens.{atoms_of_given, slots_of_given};

use crate::given::Given;
use crate::numbers::read_numbers;
use fields::field::{read_below, read_field};
use fields::refusal::Refusal;

impl Given {
    // Every slot becomes 0.
    fn clear(&mut self)
        ensures { (self.new.locals ≡ no_locals) × (slots_of_given self.new ≡ no_slots) }
    {
        *self = Given::empty();
    }

    // One atom, into its slot.
    fn read_atom(
        &mut self,
        bytes: &[u8],
        at: usize,
        measures: u8,
        slot: usize,
    ) -> Result<usize, Refusal>
        requires { slot < 16 }
        ensures atoms { Into (put_atom slot) bytes.now
            (atoms_of_given self.old)
            (atom measures (drop at bytes.now)) (numbered result)
            (atoms_of_given self.new) }
        ensures rest { (self.new.locals ≡ self.old.locals) × (self.new.counts ≡ self.old.counts) }
    {
        let (measure, next) = read_below(bytes, at, u64::from(measures))?;
        let (operator, row) = read_field(bytes, next, Refusal::Unknown, 1, 6)?;
        let last = read_numbers(bytes, row, 100, &mut self.coefficients, slot * 4, 4)?;
        let end = read_numbers(bytes, last, 1_000_000, &mut self.constant, slot, 1)?;
        self.measure[slot] = measure as u8;
        self.operator[slot] = operator as u8;
        Ok(end)
    }

    // So many atoms, into the slots from one on.
    fn read_atoms(
        &mut self,
        bytes: &[u8],
        at: usize,
        measures: u8,
        first: usize,
        count: usize,
    ) -> Result<usize, Refusal>
        requires { ((count ≡ 0 → at ≤ length bytes.now)) × (first + count ≤ 16) }
        ensures atoms { Into (put_atoms first) bytes.now
            (atoms_of_given self.old)
            (times count (atom measures) (drop at bytes.now)) (numbered result)
            (atoms_of_given self.new) }
        ensures rest { (self.new.locals ≡ self.old.locals) × (self.new.counts ≡ self.old.counts) }
    {
        let mut next = at;
        for slot in first..first + count {
            next = self.read_atom(bytes, next, measures, slot)?;
        }
        Ok(next)
    }

    // So many alternatives: each with its atom count and its atoms.
    fn read_alternatives(
        &mut self,
        bytes: &[u8],
        at: usize,
        measures: u8,
        count: usize,
    ) -> Result<usize, Refusal>
        requires { ((count ≡ 0 → at ≤ length bytes.now)) × (count ≤ 4) }
        ensures slots { Into (put_alternatives 0) bytes.now
            (slots_of_given self.old)
            (times count (counted (atom measures)) (drop at bytes.now)) (numbered result)
            (slots_of_given self.new) }
        ensures rest { self.new.locals ≡ self.old.locals }
    {
        let mut next = at;
        for alternative in 0..count {
            let (atoms, start) = read_field(bytes, next, Refusal::OutOfRange, 1, 4)?;
            next = self.read_atoms(bytes, start, measures, alternative * 4, atoms as usize)?;
            self.counts[alternative] = atoms as u8;
        }
        Ok(next)
    }

    // The numbers of a Wait, into slots that are 0; what was stored before a refusal stays.
    fn read_body(&mut self, bytes: &[u8], at: usize, measures: u8) -> Result<(u64, usize), Refusal>
        requires { (self.old.locals ≡ no_locals) × (slots_of_given self.old ≡ no_slots) }
        ensures { ReadsBody bytes.now (numbers measures (drop at bytes.now)) result self.new.locals (slots_of_given self.new) }
    {
        let next = read_numbers(bytes, at, 1_000_000, &mut self.locals, 0, 4)?;
        let (count, start) = read_field(bytes, next, Refusal::OutOfRange, 1, 4)?;
        let end = self.read_alternatives(bytes, start, measures, count as usize)?;
        Ok((count, end))
    }
}

// The numbers of a Wait, for a room with so many measures: the alternative count and the place after them. Slots past a count are 0, and
// after a refusal every slot is.
pub fn read_wait(
    given: &mut Given,
    bytes: &[u8],
    at: usize,
    measures: u8,
) -> Result<(u64, usize), Refusal>
    ensures { ReadsWait bytes.now (numbers measures (drop at bytes.now)) (numbered result) given.new.locals (slots_of_given given.new) }
{
    given.clear();
    let result = given.read_body(bytes, at, measures);
    if result.is_err() {
        given.clear();
    }
    result
}
