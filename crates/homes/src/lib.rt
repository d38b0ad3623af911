// The homes of nodes. Homes 0 to 31 are heaps, two for each measure: one of the alternatives tagged with > or ≥, one of those tagged with
// < or ≤. Home 32 is the row of those tagged with =, home 33 the row of those without a tag: numbers, since one array holds them all
// (docs/DECISIONS.md). A home has 128 places, more than a room has nodes; `lengths` says how many of them hold one, and the others hold 0.
#![tactic(auto)]

ghost use Rattle.std.specs.Prelude.{◌<◌, ◌≤◌, get_or, length};
ghost use Rattle.nodes.specs.Structs.{rank_in};
ghost use Rattle.nodes.specs.Rises.{Pushed, Removed};
ghost use Rattle.homes.specs.Orders.{over};
ghost use Rattle.homes.specs.Moves.{times_in_home, Put, Cut};

use nodes::{Ranks, place_of};

// Lengths beside the places and no slices or vectors: no heap, and C's room has them so.
#[repr(C)]
#[derive(Drop)]
pub struct Homes {
    pub places: [u8; 4352],
    pub lengths: [u8; 34],
}

// One node more among the first n places of a home: x. Two functions ask whether a home is a heap or a row, this and the next; a trait
// over the two would be chosen by the same test.
fn set_in(places: &mut [u8], ranks: &Ranks, home: usize, n: usize, x: u8)
    requires { n < length places.old }
    ensures { Pushed (over home) (rank_in ranks.now) places.old places.new n x }
{
    if home < 32 {
        heap::push(places, ranks, n, x);
    } else {
        rows::insert(places, ranks, n, x);
    }
}

// The node at place k leaves n + 1 nodes of a home.
fn take_out(places: &mut [u8], ranks: &Ranks, home: usize, n: usize, k: usize)
    requires fact_1 { k ≤ n }
    requires fact_2 { n < length places.old }
    ensures { Removed (over home) (rank_in ranks.now) places.old places.new n k }
{
    if home < 32 {
        heap::remove(places, ranks, n, k);
    } else {
        rows::remove(places, n, k);
    }
}

impl Homes {
    // Node x into a home.
    pub fn put(&mut self, ranks: &Ranks, home: usize, x: u8)
        requires fact_1 { home < 34 }
        requires fact_2 { get_or self.old.lengths home 0 < 128 }
        ensures { Put (rank_in ranks.now) self.old.places self.old.lengths self.new.places self.new.lengths home x }
    {
        let start = home * 128;
        let n = self.lengths[home];
        let part = &mut self.places[start..start + 128];
        set_in(part, ranks, home, n as usize, x);
        self.lengths[home] = n + 1;
    }

    // Node x, which a home holds, out of it. The place it frees is cleared.
    pub fn cut(&mut self, ranks: &Ranks, home: usize, x: u8)
        requires fact_1 { home < 34 }
        requires fact_2 { get_or self.old.lengths home 0 ≤ 128 }
        requires fact_3 { 0 < times_in_home self.old.places self.old.lengths home x }
        ensures { Cut (rank_in ranks.now) self.old.places self.old.lengths self.new.places self.new.lengths home x }
    {
        let start = home * 128;
        let left = self.lengths[home] - 1;
        let n = left as usize;
        let part = &mut self.places[start..start + 128];
        let Some(k) = place_of(&part[..n + 1], x) else {
            unreachable!();
        };
        take_out(part, ranks, home, n, k);
        part[n] = 0;
        self.lengths[home] = left;
    }
}
