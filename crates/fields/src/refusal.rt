// Refusals: why a stream, or what it holds, is not taken, each with its number in document 01.
ghost use Rattle.std.specs.Prelude.{◌≡◌, Some};
ghost use Rattle.fields.specs.Refusals.{refusal_number, Numbers};
ghost use Rattle.fields.specs.Texts.{refusal_text, no_refusal_text};

use std::error::Error;
use std::fmt;

#[derive(Clone, Copy, Debug, PartialEq, Eq, Hash)]
pub enum Refusal {
    CutShort,
    BadNumber,
    Unknown,
    OutOfRange,
    WrongStanding,
    Occupied,
    NoTicket,
    TooLong,
    NoSpace,
}

// A table, and no numbers on the variants with a cast: so two that are given one number are a wrong table, and no error of the language.
impl From<Refusal> for u8 {
    ghost from_gives = { λ r k. k ≡ refusal_number r };

    fn from(refusal: Refusal) -> u8 {
        match refusal {
            Refusal::CutShort => 1,
            Refusal::BadNumber => 2,
            Refusal::Unknown => 3,
            Refusal::OutOfRange => 4,
            Refusal::WrongStanding => 5,
            Refusal::Occupied => 6,
            Refusal::NoTicket => 7,
            Refusal::TooLong => 8,
            Refusal::NoSpace => 9,
        }
    }
}

// A number that is no refusal's.
#[derive(Clone, Copy, Debug, PartialEq, Eq, Hash)]
pub struct NoRefusal(pub u8);

impl TryFrom<u8> for Refusal {
    type Error = NoRefusal;

    ghost try_from_gives = { Numbers };

    fn try_from(number: u8) -> Result<Self, NoRefusal> {
        match number {
            1 => Ok(Refusal::CutShort),
            2 => Ok(Refusal::BadNumber),
            3 => Ok(Refusal::Unknown),
            4 => Ok(Refusal::OutOfRange),
            5 => Ok(Refusal::WrongStanding),
            6 => Ok(Refusal::Occupied),
            7 => Ok(Refusal::NoTicket),
            8 => Ok(Refusal::TooLong),
            9 => Ok(Refusal::NoSpace),
            _ => Err(NoRefusal(number)),
        }
    }
}

impl fmt::Display for Refusal {
    ghost output = { λ refusal. Some (refusal_text refusal) };

    fn fmt<W: fmt::Write>(&self, f: &mut fmt::Formatter<W>) -> fmt::Result {
        match self {
            Refusal::CutShort => f.write_str("the bytes end inside a record"),
            Refusal::BadNumber => f.write_str("a number is written badly"),
            Refusal::Unknown => f.write_str("a kind or an operator is unknown"),
            Refusal::OutOfRange => f.write_str("a number is out of range"),
            Refusal::WrongStanding => f.write_str("the job does not stand where this needs it"),
            Refusal::Occupied => f.write_str("another job is inside"),
            Refusal::NoTicket => f.write_str("no ticket is left"),
            Refusal::TooLong => f.write_str("the input is too long"),
            Refusal::NoSpace => f.write_str("what is written does not fit"),
        }
    }
}

impl fmt::Display for NoRefusal {
    ghost output = { λ none. Some (no_refusal_text none) };

    fn fmt<W: fmt::Write>(&self, f: &mut fmt::Formatter<W>) -> fmt::Result {
        write!(f, "no refusal has number {}", self.0)
    }
}

impl Error for Refusal {}

impl Error for NoRefusal {}
