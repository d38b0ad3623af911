// A row of nodes over a lent slice: its first n places hold nodes, and none ranks before the one at the place before it. Alternatives
// with an equality tag stand in one row, those without a tag in another. A row is searched by halving.
#![tactic(auto)]

ghost use Rattle.std.specs.Prelude.{ℕ, ◌<◌, ◌≤◌, length};
ghost use Rattle.nodes.specs.Structs.{rank_in};
ghost use Rattle.nodes.specs.Order.{Ordered};
ghost use Rattle.nodes.specs.Holes.{rank_at};
ghost use Rattle.nodes.specs.Rises.{Pushed, Removed};
ghost use Rattle.rows.specs.Places.{previous, previous-lt};
ghost use Rattle.rows.specs.Halves.{word_of, Reaches};

use nodes::Ranks;
use nodes::rise::{Above, rise};

// In a row the place above another is the one before.
pub struct Row;

impl Above for Row {
    ghost above = { previous };

    ghost lower = { previous-lt };

    fn above(i: usize) -> usize {
        i - 1
    }
}

// One node more: x joins the first n.
pub fn insert(row: &mut [u8], ranks: &Ranks, n: usize, x: u8)
    requires { n < length row.old }
    ensures { Pushed previous (rank_in ranks.now) row.old row.new n x }
{
    rise::<Row>(row, ranks, n + 1, n, x);
}

// The node at place k leaves n + 1 nodes: those after it move one place down. One store at a time and no `copy_within`, which calls C's
// `memmove`: a host brings `memcpy` and `memset` and no more.
pub fn remove(row: &mut [u8], n: usize, k: usize)
    requires fact_1 { k ≤ n }
    requires fact_2 { n < length row.old }
    ensures { (rank : ℕ → ℕ) → Removed previous rank row.old row.new n k }
{
    for i in k..n {
        row[i] = row[i + 1];
    }
}

// The first of n places whose node's first word is not less than `word`, or n.
pub fn first_at_least(row: &[u8], ranks: &Ranks, n: usize, word: u64) -> usize
    requires n_in_bounds_1 { n ≤ length row.now }
    requires n_in_bounds_2 { n ≤ 128 }
    requires ordered { Ordered previous (rank_at (word_of ranks.now.high) row.now) n }
    ensures { Reaches (rank_at (word_of ranks.now.high) row.now) word n result }
{
    row[..n].partition_point(|&x| ranks.high[(x % 128) as usize] < word)
}
