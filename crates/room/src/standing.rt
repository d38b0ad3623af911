// How a job stands, in the numbers of a room's `standing` (specs/Arrays.antt). Numbers, since hosts read that array through C.
pub const OUTSIDE: u8 = 0;

pub const DOOR: u8 = 1;

pub const INSIDE: u8 = 2;

pub const WAITING: u8 = 3;

pub const CALLED: u8 = 4;
