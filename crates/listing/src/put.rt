// Bytes, texts and numbers, one after the other into a lent buffer and cut at its end. These are functions of their own, and not `write!`:
// a buffer that is too short is no error here.
ghost use Rattle.std.specs.Prelude.{[], ◌∷◌};
ghost use Rattle.rules.specs.Listing.{decimal};
ghost use Rattle.listing.specs.Output.{output, Writes};

// The place after the byte, or the same place at the buffer's end.
#[tactic(auto, unfolding(crate::specs::Output::puts))]
pub fn put(out: &mut [u8], at: usize, byte: u8) -> usize
    ensures { Writes (output out.old at) (output out.new result) (byte ∷ []) }
{
    if at < out.len() {
        out[at] = byte;
        return at + 1;
    }
    at
}

#[tactic(auto, unfolding(crate::specs::Output::puts))]
pub fn put_text(out: &mut [u8], at: usize, text: &[u8]) -> usize
    ensures { Writes (output out.old at) (output out.new result) text.now }
{
    let mut next = at;
    for byte in text {
        next = put(out, next, *byte);
    }
    next
}

// A call for each digit, the highest first, so that no digit waits in an array of its own.
pub fn put_decimal(out: &mut [u8], at: usize, n: usize) -> usize
    ensures { Writes (output out.old at) (output out.new result) (decimal n) }
{
    let digit = b'0' + (n % 10) as u8;
    if n < 10 {
        return put(out, at, digit);
    }
    let next = put_decimal(out, at, n / 10);
    put(out, next, digit)
}
