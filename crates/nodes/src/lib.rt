// Which of two nodes ranks before the other, and a node that rises among others. A node is a waiting job's alternative; its rank is two
// words, at the node's number in two arrays.
#![tactic(auto)]

ghost use Rattle.std.specs.Prelude.{◌≡◌, ltb};
ghost use Rattle.nodes.specs.Structs.{rank_in};
ghost use Rattle.nodes.specs.Finds.{FirstOf};

pub mod rise;

// The two words of every node, array beside array: C's room has them so.
#[repr(C)]
#[derive(Drop)]
pub struct Ranks {
    pub high: [u64; 128],
    pub low: [u64; 128],
}

impl Ranks {
    // By their words, the high one before the low one; a node is below 128.
    pub fn before(&self, x: u8, y: u8) -> bool
        ensures { result ≡ ltb (rank_in self.now x) (rank_in self.now y) }
    {
        let i = (x % 128) as usize;
        let j = (y % 128) as usize;
        (self.high[i], self.low[i]) < (self.high[j], self.low[j])
    }
}

// The first place where node x stands.
pub fn place_of(places: &[u8], x: u8) -> Option<usize>
    ensures { FirstOf places.now x result }
{
    places.iter().position(|y| *y == x)
}
