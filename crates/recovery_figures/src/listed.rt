// A drive of document 01's geometry, B 32, k 2, P 3, H 2 and M 4, and lines of the listing written on it.
ghost use Rattle.std.specs.Prelude.{◌≡◌};
ghost use Rattle.model.specs.Calls.{formatted};
ghost use Rattle.model.specs.Promises.Figures.{small};
ghost use Rattle.model.specs.Promises.Limits.{listed_on};
ghost use Rattle.mapper.specs.Writes.{brought_by};
ghost use Rattle.recovery_figures.specs.Listed.{data_offered, listed_offer, three_written, two_written};
ghost use Rattle.recovery_figures.specs.Listed.{five_written, five_drive};

use layout::geometry::Geometry;
use layout::numbers::{HiddenNumber, PublicNumber};
use mapper::{HiddenOffer, format_drive, write_block};

const SMALL: Geometry = Geometry {
    block_size: 32,
    height: 2,
    publics: 3,
    hidden: 2,
    slots: 4,
};

pub fn format_small(disk: &mut [u8])
    ensures { disk.new ≡ formatted disk.old small }
{
    let _ = format_drive(disk, SMALL);
}

// What is offered of data to a hidden number, or nothing.
fn offer_of<'a>(number: Option<u32>, content: &'a [u8]) -> Option<HiddenOffer<'a>>
    ensures { brought_by result ≡ data_offered number content.now }
{
    match number {
        Some(number) => Some(HiddenOffer {
            number: HiddenNumber(number),
            content,
        }),
        None => None,
    }
}

// Writes a line, with what is offered to a hidden number or none: data and offered data are the line's
// number, the random bytes 165, the list has 23 entries.
pub fn write_line(disk: &mut [u8], line: u8, number: u32, offer: Option<u32>)
    ensures { disk.new ≡ listed_on disk.old line number (listed_offer offer line) }
{
    let content = [line; 32];
    let _ = write_block(
        disk,
        PublicNumber(number),
        &content,
        offer_of(offer, &content),
        &[165u8; 256],
        &mut [99u32; 23],
    );
}

// Lines 0 -, 0 1 and 1 -: hidden 1 goes to slot 1.
pub fn write_three(disk: &mut [u8])
    ensures { disk.new ≡ three_written disk.old }
{
    write_line(disk, 1, 0, None);
    write_line(disk, 2, 0, Some(1));
    write_line(disk, 3, 1, None);
}

// Lines 2 - and 2 0: hidden 0 goes to slot 0.
fn write_two(disk: &mut [u8])
    ensures { disk.new ≡ two_written disk.old }
{
    write_line(disk, 4, 2, None);
    write_line(disk, 5, 2, Some(0));
}

// Formats a disk, and writes the five lines.
pub fn write_five(disk: &mut [u8])
    ensures { disk.new ≡ five_written disk.old }
{
    format_small(disk);
    write_three(disk);
    write_two(disk);
}

// The drive after the five lines, on zeros.
pub fn five_lines() -> [u8; 512]
    ensures { result ≡ five_drive }
{
    let mut disk = [0u8; 512];
    write_five(&mut disk);
    disk
}
