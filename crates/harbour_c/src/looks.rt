// The exports over `harbour::looks`.
ghost use Rattle.std.specs.Prelude.{◌≡◌, pos, get_or};
ghost use Rattle.harbour.specs.Looks.{inside_from};

// The standing of a job; 0 for a number that names none.
#[unsafe(no_mangle)]
pub extern "C" fn harbour_standing(standing: &[u8; 32], job: u8) -> u8
    ensures { result ≡ get_or standing.now job 0 }
{
    harbour::looks::harbour_standing(standing, job)
}

// The job inside, or 32 for nobody.
#[unsafe(no_mangle)]
pub extern "C" fn harbour_inside(standing: &[u8; 32]) -> u8
    ensures { result ≡ inside_from standing.now 32 0 }
{
    harbour::looks::harbour_inside(standing)
}

// The value of a shared variable; 0 for a number that names none.
#[unsafe(no_mangle)]
pub extern "C" fn harbour_value(values: &[i64; 8], variable: u8) -> i64
    ensures { result ≡ get_or values.now variable (pos 0) }
{
    harbour::looks::harbour_value(values, variable)
}
