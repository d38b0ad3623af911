// Numbers in groups of seven bits, lowest first, into the bytes of a record that is being made.
ghost use Rattle.std.specs.Prelude.{◌≡◌, ◌+◌, ◌<◌, ◌≤◌, length};
ghost use Rattle.std.proofs.lemmas.List.Edits.{sets};
ghost use Rattle.rules.specs.Writer.{number_bytes};

// The place after it.
pub fn put_number(out: &mut [u8], at: usize, n: u64) -> usize
    requires fact_1 { at + 5 ≤ length out.old }
    requires fact_2 { n < 4_294_967_296 }
    ensures { (out.new ≡ sets out.old at (number_bytes n)) × (result ≡ at + length (number_bytes n)) }
{
    let mut rest = n;
    let mut i = at;
    // no plainer as a `for`: the number itself says how many groups it has, so no range of places does
    while 128 <= rest {
        out[i] = (rest % 128) as u8 + 128;
        rest /= 128;
        i += 1;
    }
    out[i] = rest as u8;
    i + 1
}
