// Rows of a geometry: how large its drive is, where its data area starts and a slot's bit stands, and what
// formatting answers and leaves.
ghost use Rattle.std.specs.Prelude.{◌≡◌};
ghost use Rattle.model.specs.Calls.{formatted};
ghost use Rattle.layout.specs.Geometries.{geometry_of};
ghost use Rattle.figures.specs.Layouts.{start_of, place_of, size_agrees, formatted_agrees, format_agrees};

use answers_c::drives::Size;
use figure_lines::lines::{byte_or, print_count, print_figure, print_named};
use figure_lines::output::Output;
use figure_lines::rows::Row;
use layout::bitmap::bit_place;
use layout::geometry::{Geometry, area_start, is_geometry};
use layout::refusals::answer_number;
use mapper::{drive_size, format_drive};

// B, k, P, H, M and a slot; the answer, the blocks T and the bytes, the start D of the data area, and the
// place of the slot's bit in its bitmap block. Where the answer is not 0, the others are.
#[derive(Clone, Copy)]
pub struct SizeRow(
    pub u32,
    pub u32,
    pub u32,
    pub u32,
    pub u32,
    pub u32,
    pub u32,
    pub u32,
    pub u64,
    pub u32,
    pub u32,
);

// B, k, P, H, M, how many bytes of 170 are formatted, and an entry's index; the answer, and that entry after
// it.
#[derive(Clone, Copy)]
pub struct FormatRow(
    pub u32,
    pub u32,
    pub u32,
    pub u32,
    pub u32,
    pub usize,
    pub usize,
    pub u32,
    pub u32,
);

// ---- geometries ----

fn print_geometry(output: &mut Output, g: Geometry) {
    print_named(output, b"B ", u64::from(g.block_size));
    print_named(output, b", k ", u64::from(g.height));
    print_named(output, b", P ", u64::from(g.publics));
    print_named(output, b", H ", u64::from(g.hidden));
    print_named(output, b", M ", u64::from(g.slots));
}

// ---- sizes ----

fn start_of(g: Geometry) -> u32
    ensures { result ≡ start_of (geometry_of g) }
{
    if is_geometry(g) {
        let start = area_start(g);
        return start.0;
    }
    0
}

fn place_of(g: Geometry, slot: u32) -> u32
    ensures { result ≡ place_of (geometry_of g) slot }
{
    if is_geometry(g) {
        if slot < g.slots {
            return bit_place(g, slot) as u32;
        }
    }
    0
}

impl Row for SizeRow {
    ghost agrees = { size_agrees };

    fn run(self, output: &mut Output) -> bool {
        let g = Geometry {
            block_size: self.0,
            height: self.1,
            publics: self.2,
            hidden: self.3,
            slots: self.4,
        };
        print_geometry(output, g);
        let size = Size::from(drive_size(g));
        let answered = print_count(output, b": size", self.6, size.answer);
        let counted = print_count(output, b"  blocks", self.7, size.blocks);
        let filled = print_figure(output, b"  bytes", self.8, size.bytes);
        let started = print_count(output, b"  data area", self.9, start_of(g));
        print_named(output, b"  bit place of slot ", u64::from(self.5));
        let placed = print_count(output, b"", self.10, place_of(g, self.5));
        answered & counted & filled & started & placed
    }
}

// ---- formatting ----

// Formats a disk, and looks at a byte of it.
fn format_on(
    output: &mut Output,
    disk: &mut [u8],
    g: Geometry,
    index: usize,
    answer: u32,
    value: u32,
) -> bool
    ensures agreed { result ≡ formatted_agrees disk.old (geometry_of g) index answer value }
    ensures stored { disk.new ≡ formatted disk.old (geometry_of g) }
{
    let told = answer_number(format_drive(disk, g));
    let answered = print_count(output, b"", answer, u32::from(told));
    print_named(output, b"  byte ", index as u64);
    let shown = print_count(output, b"", value, byte_or(disk, index));
    answered & shown
}

impl Row for FormatRow {
    ghost agrees = { format_agrees };

    fn run(self, output: &mut Output) -> bool {
        let g = Geometry {
            block_size: self.0,
            height: self.1,
            publics: self.2,
            hidden: self.3,
            slots: self.4,
        };
        let mut disk = [170u8; 5696];
        let bytes = self.5.min(5696);
        print_geometry(output, g);
        print_named(output, b": formatting bytes ", bytes as u64);
        format_on(output, &mut disk[..bytes], g, self.6, self.7, self.8)
    }
}
