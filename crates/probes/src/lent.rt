// The structs that the functions under the probes take, over copies of lent arrays: C lends each array for itself. An array that a
// function does not read is lent as zeros.
ghost use Rattle.std.specs.Prelude.{◌≡◌, length};

use condition::slots::{Conditions, Shared};
use homes::Homes;
use index::Index;
use nodes::Ranks;

pub fn shared_of(coefficients: &[i64; 128], values: &[i64; 8]) -> Shared
    ensures { result ≡ record { coefficients = coefficients.now; values = values.now } }
{
    Shared {
        coefficients: *coefficients,
        values: *values,
    }
}

pub fn conditions_of(
    alternatives: &[u8; 32],
    atoms: &[u8; 128],
    measure: &[u8; 512],
    operator: &[u8; 512],
    key: &[i64; 512],
) -> Conditions
    ensures { result ≡ record {
      alternatives = alternatives.now;
      atoms = atoms.now;
      measure = measure.now;
      operator = operator.now;
      key = key.now;
    } }
{
    Conditions {
        alternatives: *alternatives,
        atoms: *atoms,
        measure: *measure,
        operator: *operator,
        key: *key,
    }
}

pub fn ranks_of(high: &[u64; 128], low: &[u64; 128]) -> Ranks
    ensures { result ≡ record { high = high.now; low = low.now } }
{
    Ranks {
        high: *high,
        low: *low,
    }
}

pub fn index_of(
    entry: &[u8; 32],
    high: &[u64; 128],
    low: &[u64; 128],
    places: &[u8],
    lengths: &[u8],
) -> Index
    requires places_long { length places.now ≡ 4352 }
    requires lengths_long { length lengths.now ≡ 34 }
    ensures { result ≡ record {
      entry = entry.now;
      ranks = record { high = high.now; low = low.now };
      homes = record { places = places.now; lengths = lengths.now };
    } }
{
    let mut homes = Homes {
        places: [0; 4352],
        lengths: [0; 34],
    };
    homes.places.copy_from_slice(places);
    homes.lengths.copy_from_slice(lengths);
    Index {
        entry: *entry,
        ranks: ranks_of(high, low),
        homes,
    }
}
