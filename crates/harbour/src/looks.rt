// What a host may look at, each over the one field of its room that it needs: standings 0 outside, 1 at the door, 2 inside, 3 waiting, 4
// called. What these numbers are of the rules' room is in specs/Looks.antt. A number for none is the C interface.
ghost use Rattle.std.specs.Prelude.{◌≡◌, pos, get_or};
ghost use Rattle.harbour.specs.Looks.{inside_from};

// The standing of a job; 0 for a number that names none.
pub fn harbour_standing(standing: &[u8; 32], job: u8) -> u8
    ensures { result ≡ get_or standing.now job 0 }
{
    standing.get(job as usize).copied().unwrap_or(0)
}

// The job inside, or 32 for nobody.
pub fn harbour_inside(standing: &[u8; 32]) -> u8
    ensures { result ≡ inside_from standing.now 32 0 }
{
    let job = standing.iter().position(|code| *code == 2);
    job.unwrap_or(32) as u8
}

// The value of a shared variable; 0 for a number that names none.
pub fn harbour_value(values: &[i64; 8], variable: u8) -> i64
    ensures { result ≡ get_or values.now variable (pos 0) }
{
    values.get(variable as usize).copied().unwrap_or(0)
}
