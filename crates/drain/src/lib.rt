// A walk over a heap in the order of ranks: the root is the first; it is evaluated, taken off if it is false, and so on, until a tag does
// not hold. What is taken off is gone: the heap is a search's own copy.
#![tactic(auto)]

ghost use Rattle.std.specs.Prelude.{◌≡◌, ◌≤◌, length};
ghost use Rattle.condition.specs.Slots.{Fits};
ghost use Rattle.nodes.specs.Structs.{rank_in};
ghost use Rattle.nodes.specs.Order.{Ordered};
ghost use Rattle.nodes.specs.Holes.{rank_at};
ghost use Rattle.nodes.specs.Sorted.{sorted, Apart};
ghost use Rattle.heap.specs.Places.{above};
ghost use Rattle.walk.specs.Walks.{walked, walked_on};
ghost use Rattle.walk.specs.Slots.{truth_of};
ghost use Rattle.drain.specs.Drained.{while};
ghost use Rattle.drain.specs.Slots.{holds_of};
ghost use Rattle.drain.specs.Copies.{Copied};

use condition::slots::{Conditions, Shared};
use heap::remove;
use nodes::Ranks;
use walk::{Walk, node_true};

// A node is below 128.
fn node_tag_holds(shared: &Shared, conditions: &Conditions, node: u8) -> bool
    requires { Fits shared.now conditions.now }
    ensures { result ≡ holds_of shared.now conditions.now node }
{
    conditions.tag_holds(shared, (node % 128) as usize)
}

// The n nodes that a heap has left, after so many evaluated before them. What is taken off is gone, so the loop counts down what is left.
#[tactic(auto, using(crate::proofs::Laws::drain_laws))]
fn drain(
    heap: &mut [u8],
    ranks: &Ranks,
    n: usize,
    before: usize,
    shared: &Shared,
    conditions: &Conditions,
) -> Walk
    requires n_in_bounds_1 { n ≤ length heap.old }
    requires n_in_bounds_2 { before ≤ 1 }
    requires n_in_bounds_3 { Fits shared.now conditions.now }
    requires ordered_1 { Ordered above (rank_at (rank_in ranks.now) heap.old) n }
    requires ordered_2 { Apart (rank_in ranks.now) (sorted (rank_in ranks.now) heap.old n) }
    ensures { result ≡ walked_on (truth_of shared.now conditions.now) before
        (while (holds_of shared.now conditions.now) (sorted (rank_in ranks.now) heap.old n)) }
{
    let mut evaluated = before;
    for left in (0..n).rev() {
        let node = heap[0];
        if !node_tag_holds(shared, conditions, node) {
            return Walk::Nobody(evaluated);
        }
        evaluated += 1;
        if node_true(shared, conditions, node) {
            return Walk::Found(node, evaluated);
        }
        remove(heap, ranks, left, 0);
    }
    Walk::Nobody(evaluated)
}

// The first n places of a heap into another slice.
fn copy_nodes(copy: &mut [u8], heap: &[u8], n: usize)
    requires fact_1 { n ≤ length copy.old }
    requires fact_2 { n ≤ length heap.now }
    ensures { Copied heap.now copy.old copy.new n }
{
    copy[..n].copy_from_slice(&heap[..n]);
}

// The nodes of a heap in the order of ranks, while their tags hold: which is the first true one, and how many were evaluated. Only if the
// root's tag holds and its alternative is false are the places copied, and the walk goes on in the copy: nothing has to be put back.
pub fn evaluate_heap(
    heap: &[u8],
    ranks: &Ranks,
    n: usize,
    shared: &Shared,
    conditions: &Conditions,
) -> Walk
    requires n_in_bounds_1 { n ≤ length heap.now }
    requires n_in_bounds_2 { n ≤ 128 }
    requires n_in_bounds_3 { Fits shared.now conditions.now }
    requires ordered_1 { Ordered above (rank_at (rank_in ranks.now) heap.now) n }
    requires ordered_2 { Apart (rank_in ranks.now) (sorted (rank_in ranks.now) heap.now n) }
    ensures { result ≡ walked (truth_of shared.now conditions.now)
        (while (holds_of shared.now conditions.now) (sorted (rank_in ranks.now) heap.now n)) }
{
    if n == 0 {
        return Walk::Nobody(0);
    }
    let root = heap[0];
    if !node_tag_holds(shared, conditions, root) {
        return Walk::Nobody(0);
    }
    if node_true(shared, conditions, root) {
        return Walk::Found(root, 1);
    }
    let mut copy: [u8; 128] = [0; 128];
    copy_nodes(&mut copy, heap, n);
    let left = n - 1;
    remove(&mut copy, ranks, left, 0);
    drain(&mut copy, ranks, left, 1, shared, conditions)
}
