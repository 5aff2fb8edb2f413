// Lists of what a write stores: one entry, all of them printed, and two compared.
ghost use Rattle.std.specs.Prelude.{◌≡◌, get_or};
ghost use Rattle.figure_lines.specs.Counts.{is_listed};

use crate::lines::print_named;
use crate::output::{Output, put_bytes};

// The entry of a list at an index: what was stored, or 99 past that.
fn entry_said(stored: &[u32], index: usize) -> u32
    ensures { result ≡ get_or stored.now index 99 }
{
    stored.get(index).copied().unwrap_or(99)
}

// Prints the first so many entries of a list, a space before each.
pub fn print_entries(output: &mut Output, stored: &[u32], count: usize) {
    for i in 0..count {
        print_named(output, b" ", u64::from(entry_said(stored, i)));
    }
}

// Whether a list has what was stored in front, and else 99.
fn is_listed<'a>(stored: &'a [u32], list: &'a [u32]) -> bool
    ensures { result ≡ is_listed stored.now list.now }
{
    let mut same = true;
    for (i, entry) in list.iter().enumerate() {
        same &= entry_said(stored, i) == *entry;
    }
    same
}

// Prints a list beside what the document says; answers whether they are equal.
pub fn print_list<'a>(output: &mut Output, stored: &'a [u32], list: &'a [u32]) -> bool
    ensures { result ≡ is_listed stored.now list.now }
{
    put_bytes(output, b"  list expected");
    print_entries(output, stored, list.len());
    put_bytes(output, b" got");
    print_entries(output, list, list.len());
    put_bytes(output, b"\n");
    is_listed(stored, list)
}
