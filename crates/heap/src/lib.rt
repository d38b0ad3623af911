// A binary heap of nodes over a lent slice (figure 4 of the paper): its first n places hold nodes, and none ranks before the one above
// it. The slice is longer than n: a node that joins stands at place n. Place i has its children at 2 * i + 1 and 2 * i + 2. Nodes go in
// and out; a hole moves along the way, so each step is one store.
#![tactic(auto)]

ghost use Rattle.std.specs.Prelude.{◌+◌, ◌*◌, ◌<◌, ◌≤◌, length};
ghost use Rattle.nodes.specs.Structs.{rank_in};
ghost use Rattle.nodes.specs.Holes.{rank_at};
ghost use Rattle.nodes.specs.Rises.{Pushed, Removed};
ghost use Rattle.heap.specs.Places.{above, above-lt};
ghost use Rattle.heap.specs.Sinks.{LeastChild, Next, Sunk};

use nodes::Ranks;
use nodes::rise::{Above, goes_up, rise};

// In a heap the place above another is half way.
pub struct Heap;

impl Above for Heap {
    ghost above = { above };

    ghost lower = { above-lt };

    fn above(i: usize) -> usize {
        (i - 1) / 2
    }
}

// One node more: x joins the first n.
pub fn push(heap: &mut [u8], ranks: &Ranks, n: usize, x: u8)
    requires { n < length heap.old }
    ensures { Pushed above (rank_in ranks.now) heap.old heap.new n x }
{
    rise::<Heap>(heap, ranks, n + 1, n, x);
}

// The child of place i that ranks first.
fn least_child(heap: &[u8], ranks: &Ranks, n: usize, i: usize) -> usize
    requires fact_1 { 2 * i + 1 < n }
    requires fact_2 { n ≤ length heap.now }
    ensures { LeastChild (rank_at (rank_in ranks.now) heap.now) n i result }
{
    let c = 2 * i + 1;
    let d = 2 * i + 2;
    if n <= d {
        return c;
    }
    if ranks.before(heap[d], heap[c]) {
        return d;
    }
    c
}

// Where the hole at place i goes when x sinks into it: to the child that ranks first, if that ranks before x.
#[tactic(auto, using(crate::proofs::Laws::next_laws))]
fn goes_down(heap: &[u8], ranks: &Ranks, n: usize, i: usize, x: u8) -> Option<usize>
    requires fact_1 { i < n }
    requires fact_2 { n ≤ length heap.now }
    ensures { Next (rank_at (rank_in ranks.now) heap.now) n i (rank_in ranks.now x) result }
{
    if n <= 2 * i + 1 {
        return None;
    }
    let child = least_child(heap, ranks, n, i);
    if ranks.before(heap[child], x) {
        return Some(child);
    }
    None
}

// Node x into the hole at place k of n, from where it sinks.
#[tactic(auto, using(nodes::specs::Holes::moved_none))]
fn sink(heap: &mut [u8], ranks: &Ranks, n: usize, k: usize, x: u8)
    requires fact_1 { k < n }
    requires fact_2 { n ≤ length heap.old }
    ensures { Sunk (rank_in ranks.now) heap.old heap.new n k x }
{
    let mut i = k;
    while let Some(c) = goes_down(heap, ranks, n, i, x) {
        heap[i] = heap[c];
        i = c;
    }
    heap[i] = x;
}

// The node at place k leaves n + 1 nodes: the last one fills its place, and rises or sinks from there.
pub fn remove(heap: &mut [u8], ranks: &Ranks, n: usize, k: usize)
    requires fact_1 { k ≤ n }
    requires fact_2 { n < length heap.old }
    ensures { Removed above (rank_in ranks.now) heap.old heap.new n k }
{
    if n == k {
        return;
    }
    let x = heap[n];
    if goes_up::<Heap>(heap, ranks, k, x) {
        rise::<Heap>(heap, ranks, n, k, x);
        return;
    }
    sink(heap, ranks, n, k, x);
}
