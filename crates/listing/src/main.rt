// The listing of document 01 ("Figures to hold against"): reads lines of values from standard input, makes a
// write of each on a drive of its own, and prints a heading and a line for each write.
#![tactic(auto)]

mod writes; // the write of one line, and its line of output
mod streams; // standard input and output
mod progress; // where a listing stands, byte by byte

ghost use Rattle.std.specs.Prelude.{◌≡◌, ◌+◌, ◌≤◌, ◌<◌, ◌^◌, length};
ghost use Rattle.model.specs.Blocks.{Bytes};
ghost use Rattle.script.specs.Texts.{Put};
ghost use Rattle.script.specs.Reports.{heading};
ghost use Rattle.listing.specs.Listings.{begun, after_byte, text_of_byte, after_bytes, after_end};
ghost use Rattle.listing.specs.Listings.{text_of_end};
ghost use Rattle.listing.specs.Listings.{Lent, listing_of, WentOn, Fed, Led, listing, printed};

use progress::{Progress, begin, step_byte, step_end};
use script::reports::put_heading;
use std::io;
use streams::{Streams, finish, read_bytes, streams_on, write_bytes};

// Hands so many bytes from the front of a buffer to standard output, which takes them where it took all
// before; answers how many. Nothing else prints. No contract can speak of what is written there: the cases of
// tests/listing do.
fn print_front(streams: &mut Streams, out: &[u8], put: usize) -> usize
    requires { put ≤ length out.now }
    ensures { result ≡ put }
{
    write_bytes(streams, &out[..put]);
    put
}

// Puts the heading and prints it; answers its length.
fn print_heading(streams: &mut Streams, out: &mut [u8]) -> usize
    requires { length heading ≤ length out.old }
    ensures { Put heading out.old 0 out.new result }
{
    let put = put_heading(out);
    print_front(streams, out, put)
}

// Takes one more byte of input and prints what comes of it: what it prints stands at the front of the buffer,
// and the progress has its length.
fn list_byte(
    streams: &mut Streams,
    progress: Progress,
    byte: u8,
    buffer: &mut [u8],
    disk: &mut [u8],
    out: &mut [u8],
) -> Progress
    requires line_bound { progress.line + 1 < 2 ^ 64 }
    requires lent { Lent buffer.old disk.old out.old }
    ensures { WentOn
        (after_byte (listing_of progress buffer.old disk.old) byte)
        (text_of_byte (listing_of progress buffer.old disk.old) byte)
        buffer.new disk.new out.old out.new result }
{
    let next = step_byte(progress, byte, buffer, disk, out);
    let put = print_front(streams, out, next.put);
    Progress { put, ..next }
}

// Takes the end of the input and prints what comes of it, as a byte's.
fn list_end(
    streams: &mut Streams,
    progress: Progress,
    buffer: &[u8],
    disk: &mut [u8],
    out: &mut [u8],
) -> Progress
    requires line_bound { progress.line + 1 < 2 ^ 64 }
    requires lent { Lent buffer.now disk.old out.old }
    ensures { WentOn
        (after_end (listing_of progress buffer.now disk.old))
        (text_of_end (listing_of progress buffer.now disk.old))
        buffer.now disk.new out.old out.new result }
{
    let last = step_end(progress, buffer, disk, out);
    let put = print_front(streams, out, last.put);
    Progress { put, ..last }
}

// Takes a piece of the input, byte by byte.
fn list_bytes(
    streams: &mut Streams,
    progress: Progress,
    piece: &[u8],
    buffer: &mut [u8],
    disk: &mut [u8],
    out: &mut [u8],
) -> Progress
    requires piece_bound { progress.line + length piece.now < 2 ^ 64 }
    requires lent { Lent buffer.old disk.old out.old }
    ensures disk_after { listing_of result buffer.new disk.new ≡
        after_bytes (listing_of progress buffer.old disk.old) piece.now }
    ensures line_bound { result.line ≤ progress.line + length piece.now }
{
    let mut current = progress;
    for byte in piece {
        current = list_byte(streams, current, *byte, buffer, disk, out);
    }
    current
}

// Reads a piece of the input and takes it, or its end where nothing is read.
fn list_piece(
    streams: &mut Streams,
    progress: Progress,
    piece: &mut [u8],
    buffer: &mut [u8],
    disk: &mut [u8],
    out: &mut [u8],
) -> Progress
    requires piece_bound { progress.line + length piece.old + 1 < 2 ^ 64 }
    requires lent { Lent buffer.old disk.old out.old }
    ensures fed { Fed (listing_of progress buffer.old disk.old) piece.new
        (listing_of result buffer.new disk.new) }
    ensures line_bound { result.line ≤ progress.line + length piece.old + 1 }
{
    let count = read_bytes(streams, piece);
    if count == 0 {
        return list_end(streams, progress, buffer, disk, out);
    }
    list_bytes(streams, progress, &piece[..count], buffer, disk, out)
}

// Turns of the loop over pieces. A proved loop has to end, and nothing says that the input does; no run uses
// up so many.
const TURNS: u64 = 1125899906842624;

// Lists the input, piece by piece, until a line or the input ends it.
fn list_input(
    streams: &mut Streams,
    progress: Progress,
    piece: &mut [u8],
    buffer: &mut [u8],
    disk: &mut [u8],
    out: &mut [u8],
) -> Progress
    requires line_value { progress.line ≡ 1 }
    requires piece_len_bound { length piece.old ≤ 4096 }
    requires lent { Lent buffer.old disk.old out.old }
    ensures { Led (listing_of progress buffer.old disk.old)
        (listing_of result buffer.new disk.new) }
{
    let mut current = progress;
    for _ in 0..TURNS {
        if !current.is_open {
            return current;
        }
        current = list_piece(streams, current, piece, buffer, disk, out);
    }
    current
}

// Formats the disk, prints the heading and lists the input. Some input leads to where the listing then
// stands (`led`): a contract does not know what was read. Of any input, what the steps put, one after another
// and after the heading, is its listing (`whole`). That all of it is printed is tested, not proved.
fn run_listing(
    streams: &mut Streams,
    piece: &mut [u8],
    buffer: &mut [u8],
    disk: &mut [u8],
    out: &mut [u8],
) -> Progress
    requires piece_len_bound { length piece.old ≤ 4096 }
    requires lent { Lent buffer.old disk.old out.old }
    ensures led { Led (begun disk.old)
        (listing_of result buffer.new disk.new) }
    ensures whole { (input : Bytes) → printed input ≡ listing input }
{
    print_heading(streams, out);
    let progress = begin(disk);
    list_input(streams, progress, piece, buffer, disk, out)
}

fn main(rt: HostRuntime) -> io::Result<()> {
    let mut streams = streams_on(rt.stdin(), rt.stdout());
    run_listing(
        &mut streams,
        &mut [0u8; 4096],
        &mut [0u8; 20],
        &mut [0u8; 512],
        &mut [0u8; 312],
    );
    finish(streams)
}
