// Rows of a write with an offer that is cut after so many stores: what it tells, and what is shown once the
// drive is recovered. The drive is that of the five lines; data 8 goes to number 0, with hidden 0, data 8,
// offered.
ghost use Rattle.std.specs.Prelude.{◌≡◌, length};
ghost use Rattle.recovery_model.specs.Cuts.{cut_disk};
ghost use Rattle.mapper.specs.Cuts.{CutAnswered};
ghost use Rattle.recovery_figures.specs.Cuts.{pulled_on, cut_stores, cut_told, shown_told, mended_told};
ghost use Rattle.recovery_figures.specs.Cuts.{cut_agrees};

use crate::listed::five_lines;
use crate::tells::{hidden_first, tell_bits, tell_fault, tell_public, tell_recovery};
use answers_c::cuts::Cut;
use figure_lines::lines::{part_of, print_count, print_named};
use figure_lines::lists::print_list;
use figure_lines::output::Output;
use figure_lines::rows::Row;
use layout::numbers::{HiddenNumber, PublicNumber};
use layout::refusals::Refusal;
use mapper::{CutWritten, HiddenOffer, write_cut};

// After how many stores it is cut; how many it makes, whether it is cut, what a public read of number 0 is
// refused for before the recovery; and after it the first byte of public 0 and of hidden 0, and the first two
// bytes of the bitmap.
#[derive(Clone, Copy)]
pub struct CutRow(
    pub usize,
    pub u32,
    pub bool,
    pub u32,
    pub u32,
    pub u32,
    pub u32,
    pub u32,
);

// All stores of the whole write, of three rounds: slots 1 and 2 are kept, slot 3 takes the data.
const STORES: [u32; 17] = [7, 8, 9, 3, 0, 10, 11, 12, 3, 0, 13, 14, 15, 3, 1, 2, 0];

fn all_stores() -> [u32; 17]
    ensures { result ≡ cut_stores }
{
    STORES
}

// ---- the write ----

// Makes the first so many stores of the write; the random bytes are 165.
fn cut_write(disk: &mut [u8], list: &mut [u32], bound: usize) -> Result<CutWritten, Refusal>
    ensures { CutAnswered (pulled_on disk.old (length list.old)) bound
        disk.old list.old disk.new list.new result }
{
    let content = [8u8; 32];
    let offer = HiddenOffer {
        number: HiddenNumber(0),
        content: &content,
    };
    write_cut(
        disk,
        PublicNumber(0),
        &content,
        Some(offer),
        &[165u8; 256],
        list,
        bound,
    )
}

// Makes them with a list of 23 entries 99, and prints what the write tells and the list; answers whether they
// agree.
fn tell_cut(output: &mut Output, disk: &mut [u8], row: CutRow) -> bool
    ensures told { result ≡ cut_told row (pulled_on disk.old 23) }
    ensures stored { disk.new ≡
        cut_disk row.0 (pulled_on disk.old 23) disk.old }
{
    let mut list = [99u32; 23];
    let made = Cut::from(cut_write(disk, &mut list, row.0));
    let stores = all_stores();
    let counted = print_count(output, b": stores", row.1, made.stores);
    let ended = print_count(output, b"  is cut", u32::from(row.2), made.cut);
    let listed = print_list(output, part_of(&stores, row.0), &list);
    counted & ended & listed
}

// ---- the recovery ----

// Prints what a disk shows; answers whether it agrees.
fn tell_shown(output: &mut Output, disk: &[u8], row: CutRow) -> bool
    ensures { result ≡ shown_told row disk.now }
{
    let seen = tell_public(output, disk, row.4);
    let unseen = print_count(output, b"  hidden 0 shows", row.5, hidden_first(disk, 0));
    let marked = tell_bits(output, disk, row.6, row.7);
    seen & unseen & marked
}

// Recovers a disk, and prints what it shows; answers whether it agrees.
fn tell_mended(output: &mut Output, disk: &mut [u8], row: CutRow) -> bool
    ensures { result ≡ mended_told row disk.old }
{
    let refused = tell_fault(output, disk, row.3);
    let answered = tell_recovery(output, disk, 0);
    let shown = tell_shown(output, disk, row);
    refused & answered & shown
}

// ---- rows ----

impl Row for CutRow {
    ghost agrees = { cut_agrees };

    fn run(self, output: &mut Output) -> bool {
        print_named(
            output,
            b"five lines, write 0 with offer 0 cut after ",
            self.0 as u64,
        );
        let mut disk = five_lines();
        let told = tell_cut(output, &mut disk, self);
        let mended = tell_mended(output, &mut disk, self);
        told & mended
    }
}
