// One alternative after the other, in the order in which their nodes are given, up to the first true one: what a search does with each
// stretch of the index. It tells the node that was found and how many alternatives were evaluated.
#![tactic(auto)]

ghost use Rattle.std.specs.Prelude.{◌≡◌};
ghost use Rattle.condition.specs.Slots.{Fits};
ghost use Rattle.walk.specs.Walks.{walked};
ghost use Rattle.walk.specs.Slots.{truth_of};

use condition::slots::{Conditions, Shared};

// Both cases carry how many were evaluated, so it is neither an Option nor a Result.
#[derive(Drop)]
pub enum Walk {
    Found(u8, usize),
    Nobody(usize),
}

// A node is below 128.
pub fn node_true(shared: &Shared, conditions: &Conditions, node: u8) -> bool
    requires { Fits shared.now conditions.now }
    ensures { result ≡ truth_of shared.now conditions.now node }
{
    conditions.alternative_true(shared, (node % 128) as usize)
}

#[tactic(auto, using(crate::proofs::Laws::walk_laws))]
pub fn evaluate(nodes: &[u8], shared: &Shared, conditions: &Conditions) -> Walk
    requires { Fits shared.now conditions.now }
    ensures { result ≡ walked (truth_of shared.now conditions.now) nodes.now }
{
    for (i, node) in nodes.iter().enumerate() {
        if node_true(shared, conditions, *node) {
            return Walk::Found(*node, i + 1);
        }
    }
    Walk::Nobody(nodes.len())
}
