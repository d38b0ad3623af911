// The opening: the coefficients and values that were read, and every other number 0; a refused one leaves 0 everywhere.
#![tactic(auto)]

ghost use Rattle.room.specs.Rooms.{arrays_of};
ghost use Rattle.opening.specs.Opens.{Opens};

use fields::refusal::Refusal;
use room::room::Room;
use wire::opening::read_opening;

// The measure count and the place after the opening.
pub fn open(room: &mut Room, bytes: &[u8]) -> Result<(u64, usize), Refusal>
    ensures { Opens bytes.now result (arrays_of room.new) }
{
    *room = Room::empty();
    let (measures, next) = read_opening(
        bytes,
        0,
        &mut room.shared.coefficients,
        &mut room.shared.values,
    )?;
    room.measures = measures as usize;
    Ok((measures, next))
}
