// Whether somebody is inside.
ghost use Rattle.std.specs.Prelude.{◌≡◌};
ghost use Rattle.room.specs.Occupied.{somebody};

use crate::standing::INSIDE;

pub fn occupied(standing: &[u8; 32]) -> bool
    ensures { result ≡ somebody standing.now 32 0 }
{
    standing.contains(&INSIDE)
}
