// A whole stream to its listing, for a host that holds both in memory.
ghost use Rattle.std.specs.Prelude.{◌≡◌, min, length};
ghost use Rattle.rules.specs.Listing.{listing as listing_of};
ghost use Rattle.listing.specs.Output.{filled};

use listing::listing;

// How much of the buffer is filled. No listing is longer than 655,360 bytes; one longer than the buffer is cut at its end.
pub fn harbour_listing(out: &mut [u8], input: &[u8]) -> usize
    ensures { (out.new ≡ filled out.old (listing_of input.now)) × (result ≡ min (length out.old) (length (listing_of input.now))) }
{
    listing(out, input)
}
