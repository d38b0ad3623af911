// The stream program: standard input's bytes to their listing on standard output. A read or a write that fails ends it with that error.
#![tactic(auto)]

ghost use Rattle.std.specs.Prelude.{◌<◌, take, length, OnOk, IfOk, IfSome};
ghost use Rattle.std.specs.Io.{ReadsAtMost};
ghost use Rattle.std.specs.Io.KnownBytes.{Appends, Consumes, IsAtEnd};
ghost use Rattle.rules.specs.Listing.{listing as listing_of};

use listing::whole_listing;
use std::io;
use std::io::{Read, Write};

// Reads until the buffer is full or the input ends, and tells how many bytes stand at the buffer's start then. A loop, and no
// `read_to_end`, which fills a Vec: the program has no heap.
fn read_full<R: Read>(reader: &mut R, buffer: &mut [u8]) -> io::Result<usize>
    ensures count { ReadsAtMost result buffer.new }
    ensures bytes { IfOk result (λ n. Consumes (R.remaining reader.old) (R.remaining reader.new) (take n buffer.new)) }
    ensures end { IfOk result (λ n. n < length buffer.new → IsAtEnd (R.remaining reader.new)) }
{
    let mut filled = 0;
    while filled < buffer.len() {
        let got = reader.read(&mut buffer[filled..])?;
        if got == 0 {
            break;
        }
        filled += got;
    }
    Ok(filled)
}

// Writes the listing of all that the reader has left. One byte more is read than a stream may have, so that a longer input is seen to be
// too long.
fn list_stream<R: Read, W: Write>(reader: &mut R, writer: &mut W) -> io::Result<()>
    ensures { OnOk result (IfSome (R.remaining reader.old)
        (λ bytes. Appends (W.contents writer.old) (W.contents writer.new) (listing_of bytes))) }
{
    let mut input = [0u8; 65537];
    let got = read_full(reader, &mut input)?;
    let mut out = [0u8; 655360];
    let length = whole_listing(&mut out, &input[..got]);
    writer.write_all(&out[..length])
}

fn main(rt: HostRuntime) -> io::Result<()> {
    list_stream(&mut rt.stdin(), &mut rt.stdout())
}
