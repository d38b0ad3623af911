// A whole stream to its listing, in a lent buffer (document 01, "The program and one whole run").
#![tactic(auto)]

ghost use Rattle.std.specs.Prelude.{◌≡◌, ◌++◌, min, length, drop};
ghost use Rattle.rules.specs.Listing.{listing as listing_of};
ghost use Rattle.listing.specs.Bound.{Front};
ghost use Rattle.listing.specs.Output.{filled};

use crate::line::put_refusal;
use crate::stream::write_stream;
use fields::refusal::Refusal;

mod events;
mod line;
mod put;
mod stream;

// How much of the buffer is filled: a listing longer than the buffer is cut at its end.
pub fn listing(out: &mut [u8], input: &[u8]) -> usize
    ensures { (out.new ≡ filled out.old (listing_of input.now)) × (result ≡ min (length out.old) (length (listing_of input.now))) }
{
    if 65536 < input.len() {
        return put_refusal(out, 0, b"refused ", Refusal::TooLong);
    }
    write_stream(out, input)
}

// The whole listing and how long it is: no listing is longer than this buffer.
pub fn whole_listing(out: &mut [u8; 655360], input: &[u8]) -> usize
    ensures out_after { (out.new ≡ listing_of input.now ++ drop result out.old) × (result ≡ length (listing_of input.now)) }
    ensures front { Front result out.new }
{
    listing(out, input)
}
