// Signed numbers: the mapping from a number's groups, and the laws that other crates' proofs cite (specs/).
#![tactic(auto)]

ghost use Rattle.std.specs.Prelude.{◌≡◌};
ghost use Rattle.rules.specs.Number.{signed};
ghost use Rattle.rules.specs.Writer.{unsigned};

// Document 01, "Bytes": 0 and above as twice the number, below zero as minus twice the number, minus 1. Exact at both ends of i64.
pub fn signed_of(n: u64) -> i64
    ensures { result ≡ signed n }
{
    let half = (n / 2) as i64;
    if n % 2 == 0 { half } else { -1 - half }
}

// And back.
pub fn unsigned_of(z: i64) -> u64
    ensures { result ≡ unsigned z }
{
    if z < 0 {
        let half = (-1 - z) as u64;
        return half * 2 + 1;
    }
    let half = z as u64;
    half * 2
}
