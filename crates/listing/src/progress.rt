// Where a listing stands, and what each byte of input and the end of the input do to it.
ghost use Rattle.std.specs.Prelude.{◌≡◌, ◌+◌, ◌≤◌, ◌<◌, ◌^◌, length};
ghost use Rattle.model.specs.Blocks.{Bytes};
ghost use Rattle.script.specs.Lines.{meaning_of};
ghost use Rattle.script.specs.Feeding.{reading_in};
ghost use Rattle.script.specs.Reports.{report_room};
ghost use Rattle.listing.specs.Writes.{list_room};
ghost use Rattle.listing.specs.Listings.{begun, after_line, text_of_line, after_move, text_of_move};
ghost use Rattle.listing.specs.Listings.{after_byte, text_of_byte, after_end, text_of_end, Lent, listing_of};
ghost use Rattle.listing.specs.Listings.{WentOn};

use crate::writes::report_line;
use layout::geometry::Geometry;
use mapper::format_drive;
use script::feeding::{Feed, feed_byte, feed_end, read_held};
use script::lines::Line;

// Where the bytes so far end, whether more lines are taken, the number of the next line, and how many bytes
// were last put into the buffer of the output.
#[derive(Clone, Copy)]
pub struct Progress {
    pub feed: Feed,
    pub is_open: bool,
    pub line: u64,
    pub put: usize,
}

// Formats the disk for the examples' geometry. Nothing is read yet.
pub fn begin(disk: &mut [u8]) -> Progress
    ensures { (buffer : Bytes) → listing_of result buffer disk.new ≡ begun disk.old }
{
    let small = Geometry {
        block_size: 32,
        height: 2,
        publics: 3,
        hidden: 2,
        slots: 4,
    };
    let _ = format_drive(disk, small);
    Progress {
        feed: Feed::NoLine,
        is_open: true,
        line: 1,
        put: 0,
    }
}

// Takes a line that has ended: a good one is written and its line of output put, another one ends the
// listing.
fn take_line(feed: Feed, line: u64, said: Option<Line>, disk: &mut [u8], out: &mut [u8]) -> Progress
    requires line_bound { line + 1 < 2 ^ 64 }
    requires in_bounds { 24 ≤ length disk.old }
    requires list_room_in_bounds { report_room list_room ≤ length out.old }
    ensures { (buffer : Bytes) → WentOn
        (after_line (meaning_of said) (reading_in feed buffer) line disk.old)
        (text_of_line (meaning_of said) line disk.old)
        buffer disk.new out.old out.new result }
{
    match said {
        Some(good) => {
            let put = report_line(disk, line, good.number, good.offer, out);
            Progress {
                feed,
                is_open: true,
                line: line + 1,
                put,
            }
        }
        None => Progress {
            feed,
            is_open: false,
            line,
            put: 0,
        },
    }
}

// Goes on to where the bytes end now, and takes a line that has just ended.
fn move_to(feed: Feed, line: u64, buffer: &[u8], disk: &mut [u8], out: &mut [u8]) -> Progress
    requires line_bound { line + 1 < 2 ^ 64 }
    requires lent { Lent buffer.now disk.old out.old }
    ensures { WentOn
        (after_move (reading_in feed buffer.now) line disk.old)
        (text_of_move (reading_in feed buffer.now) line disk.old)
        buffer.now disk.new out.old out.new result }
{
    match feed {
        Feed::NoLine | Feed::Inside(_) => Progress {
            feed,
            is_open: true,
            line,
            put: 0,
        },
        Feed::Ended(held) => {
            let said = read_held(buffer, held);
            take_line(feed, line, said, disk, out)
        }
    }
}

// The listing with nothing put, as it stands once it has ended.
fn stay(progress: Progress) -> Progress
    ensures same { (buffer disk : Bytes) → listing_of result buffer disk ≡ listing_of progress buffer disk }
    ensures nothing { result.put ≡ 0 }
{
    Progress { put: 0, ..progress }
}

// One more byte of input.
pub fn step_byte(
    progress: Progress,
    byte: u8,
    buffer: &mut [u8],
    disk: &mut [u8],
    out: &mut [u8],
) -> Progress
    requires line_bound { progress.line + 1 < 2 ^ 64 }
    requires lent { Lent buffer.old disk.old out.old }
    ensures { WentOn
        (after_byte (listing_of progress buffer.old disk.old) byte)
        (text_of_byte (listing_of progress buffer.old disk.old) byte)
        buffer.new disk.new out.old out.new result }
{
    if !progress.is_open {
        return stay(progress);
    }
    let next = feed_byte(progress.feed, buffer, byte);
    move_to(next, progress.line, buffer, disk, out)
}

// The end of the input: a last line without its newline is taken, and no other.
pub fn step_end(progress: Progress, buffer: &[u8], disk: &mut [u8], out: &mut [u8]) -> Progress
    requires line_bound { progress.line + 1 < 2 ^ 64 }
    requires lent { Lent buffer.now disk.old out.old }
    ensures { WentOn
        (after_end (listing_of progress buffer.now disk.old))
        (text_of_end (listing_of progress buffer.now disk.old))
        buffer.now disk.new out.old out.new result }
{
    if !progress.is_open {
        return stay(progress);
    }
    let next = feed_end(progress.feed, buffer);
    let last = move_to(next, progress.line, buffer, disk, out);
    Progress {
        is_open: false,
        ..last
    }
}
