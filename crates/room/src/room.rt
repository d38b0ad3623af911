// A room: everything that a building's events read and write, in arrays of fixed size. What they mean is in specs/Arrays.antt.
ghost use Rattle.std.specs.Prelude.{◌≡◌};
ghost use Rattle.room.specs.Rooms.{arrays_of, empty};

use condition::slots::{Conditions, Shared};
use homes::Homes;
use index::Index;
use nodes::Ranks;

// The host's room is this one: its fields stand in C's order, so none may move.
#[repr(C)]
#[derive(Drop)]
pub struct Room {
    pub shared: Shared,
    pub standing: [u8; 32],
    pub ticket: [u32; 32],
    pub conditions: Conditions,
    pub index: Index,
    pub measures: usize,
    pub next_ticket: u32,
}

impl Room {
    // 0 everywhere: a room before its opening.
    pub fn empty() -> Room
        ensures { arrays_of result ≡ empty }
    {
        Room {
            shared: Shared {
                coefficients: [0; 128],
                values: [0; 8],
            },
            standing: [0; 32],
            ticket: [0; 32],
            conditions: Conditions {
                alternatives: [0; 32],
                atoms: [0; 128],
                measure: [0; 512],
                operator: [0; 512],
                key: [0; 512],
            },
            index: Index {
                entry: [0; 32],
                ranks: Ranks {
                    high: [0; 128],
                    low: [0; 128],
                },
                homes: Homes {
                    places: [0; 4352],
                    lengths: [0; 34],
                },
            },
            measures: 0,
            next_ticket: 0,
        }
    }
}
