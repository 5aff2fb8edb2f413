// Rows of a line that an offer enters.
ghost use Rattle.line_figures.specs.Enters.{enter_agrees, EnteredOn};

use answers_c::enters::entered_as;
use figure_lines::lines::{print_count, print_named};
use figure_lines::output::{Output, put_bytes};
use figure_lines::rows::Row;
use layout::numbers::HiddenNumber;
use line::offers::Offer;
use line_cases::blocks::three_blocks;
use line_cases::cases::{Start, prepare, print_start};
use line_cases::offers::{line_by, print_left, print_offer};
use mapper::enter_line;

// The byte that the disk is filled with, its bytes, P, H, M and the root's first entry; the line; the offer's
// hidden number and place, and how many offers are lent; the answer, and the line after it.
#[derive(Clone, Copy)]
pub struct EnterRow(
    pub u8,
    pub usize,
    pub u32,
    pub u32,
    pub u32,
    pub u32,
    pub u64,
    pub u32,
    pub u32,
    pub usize,
    pub u32,
    pub u64,
);

fn print_enter(output: &mut Output, offer: Offer, room: usize) {
    put_bytes(output, b": enter");
    print_offer(output, offer);
    print_named(output, b" of room ", room as u64);
}

// Makes the row's drive, enters the offer and prints what comes of it; answers whether it agrees.
fn enter_on(output: &mut Output, disk: &mut [u8], row: EnterRow) -> bool
    ensures { EnteredOn row disk.old disk.new result }
{
    let start = Start {
        publics: row.2,
        hidden: row.3,
        slots: row.4,
        entry: row.5,
        plain: 0,
        writes: 0,
        last: 0,
        line: row.6,
    };
    let offer = Offer {
        number: HiddenNumber(row.7),
        place: row.8,
    };
    print_start(output, row.0, row.1, start);
    print_enter(output, offer, row.9);
    let line = prepare(disk, start);
    let blocks = three_blocks();
    let entered = enter_line(disk, offer, &blocks, line, row.9);
    let left = entered.unwrap_or(line);
    let told = entered_as(line, entered);
    let answered = print_count(output, b"", row.10, told.answer);
    let kept = print_left(output, line_by(row.11), left);
    answered & kept
}

impl Row for EnterRow {
    ghost agrees = { enter_agrees };

    fn run(self, output: &mut Output) -> bool {
        let mut disk = [self.0; 1952];
        let count = self.1.min(1952);
        enter_on(output, &mut disk[..count], self)
    }
}
