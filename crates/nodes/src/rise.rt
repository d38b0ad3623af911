// A node rises from a hole while it ranks before the one at the place above it: so a node joins a heap, and a row.
ghost use Rattle.std.specs.Prelude.{◌≡◌, ℕ, ◌<◌, ◌≤◌, length};
ghost use Rattle.nodes.specs.Structs.{rank_in};
ghost use Rattle.nodes.specs.Rises.{rises, Risen};

use crate::Ranks;

// The place above another, which is lower than it.
pub trait Above {
    ghost above: { ℕ → ℕ };

    fn above(i: usize) -> usize
        requires { 0 < i }
        ensures { result ≡ above i };

    ghost lower: { (j : ℕ) → 0 < j → above j < j };
}

// Whether node x, at place i, ranks before the one above it.
#[tactic(auto, using(crate::proofs::Laws::above_laws))]
pub fn goes_up<A: Above>(places: &[u8], ranks: &Ranks, i: usize, x: u8) -> bool
    requires { i < length places.now }
    ensures { result ≡ rises A.above (rank_in ranks.now) places.now i x }
{
    0 < i && ranks.before(x, places[A::above(i)])
}

// Node x into the hole at place k of n, from where it rises. A hole moves along the way, so each step is one store; it goes where `above`
// says, so no `for` counts its steps.
#[tactic(auto, using(crate::proofs::Laws::rise_laws))]
pub fn rise<A: Above>(places: &mut [u8], ranks: &Ranks, n: usize, k: usize, x: u8)
    requires fact_1 { k < n }
    requires fact_2 { n ≤ length places.old }
    ensures { Risen A.above (rank_in ranks.now) places.old places.new n k x }
{
    let mut i = k;
    while goes_up::<A>(places, ranks, i, x) {
        let p = A::above(i);
        places[i] = places[p];
        i = p;
    }
    places[i] = x;
}
