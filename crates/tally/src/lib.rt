// The tally: four counts that a host lends to each event. A count that would pass the ceiling becomes the ceiling; one that is above it
// already, from the host, is left as it is.
#![tactic(auto)]

ghost use Rattle.std.specs.Prelude.{◌≡◌};
ghost use Rattle.rules.specs.Tally.{plus as plus_of};
ghost use Rattle.tally.specs.Added.{added_tally};

#[repr(C)]
#[derive(Clone, Copy)]
pub struct Tally {
    pub events: u64,
    pub calls: u64,
    pub evaluated: u64,
    pub sent_back: u64,
}

// No count goes past it.
const CEILING: u64 = 1_000_000_000;

fn plus(count: u64, n: u64) -> u64
    ensures { result ≡ plus_of count n }
{
    if CEILING <= count {
        return count;
    }
    if CEILING - count <= n {
        return CEILING;
    }
    count + n
}

impl Tally {
    // One accepted event more, with so many calls, alternatives evaluated and jobs sent back.
    pub fn added(self, calls: u64, evaluated: u64, sent_back: u64) -> Tally
        ensures { result ≡ added_tally self calls evaluated sent_back }
    {
        Tally {
            events: plus(self.events, 1),
            calls: plus(self.calls, calls),
            evaluated: plus(self.evaluated, evaluated),
            sent_back: plus(self.sent_back, sent_back),
        }
    }
}
