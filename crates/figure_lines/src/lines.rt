// A line of figures: its label, what the document says and what the code gives. And parts of what is lent,
// and entries put.
ghost use Rattle.std.specs.Prelude.{◌≡◌, eqb, take, get_or};
ghost use Rattle.figure_lines.specs.Counts.{entry_or, puts, puts_said};

use crate::output::{Output, put_bytes, put_decimal};
use layout::entries::{entry_at, put_entry};

// An entry that is put, by its index over the whole disk, and its value.
#[derive(Clone, Copy)]
pub struct Put(pub usize, pub u32);

// ---- labels ----

// Prints a text and a number after it.
pub fn print_named(output: &mut Output, text: &[u8], number: u64) {
    put_bytes(output, text);
    put_decimal(output, number);
}

// ---- figures ----

// Ends a line with what the document says and what the code gives; answers whether they agree.
pub fn print_figure(output: &mut Output, name: &[u8], expected: u64, got: u64) -> bool
    ensures { result ≡ eqb expected got }
{
    put_bytes(output, name);
    print_named(output, b" expected ", expected);
    print_named(output, b" got ", got);
    put_bytes(output, b"\n");
    expected == got
}

// The same of a number of 32 bits.
pub fn print_count(output: &mut Output, name: &[u8], expected: u32, got: u32) -> bool
    ensures { result ≡ eqb expected got }
{
    print_figure(output, name, u64::from(expected), u64::from(got))
}

// ---- parts ----

// The first so many items, or all.
pub fn part_of<T>(items: &[T], count: usize) -> &[T]
    ensures { result.now ≡ take count items.now }
{
    &items[..count.min(items.len())]
}

// The byte at an index, or 256 where there is none.
pub fn byte_or(bytes: &[u8], index: usize) -> u32
    ensures { result ≡ get_or bytes.now index 256 }
{
    bytes.get(index).map_or(256, |byte| u32::from(*byte))
}

// The entry at an index, or 0 where there is none.
pub fn entry_or(bytes: &[u8], index: usize) -> u32
    ensures { result ≡ entry_or index bytes.now }
{
    if index < bytes.len() / 4 {
        return entry_at(bytes, index);
    }
    0
}

// ---- entries put ----

// Puts an entry, where the disk has it.
pub fn put_on(disk: &mut [u8], index: usize, value: u32)
    ensures { disk.new ≡ puts index value disk.old }
{
    if index < disk.len() / 4 {
        put_entry(disk, index, value);
    }
}

// Puts the entry that is said, or none.
pub fn put_said(disk: &mut [u8], put: Option<Put>)
    ensures { disk.new ≡ puts_said put disk.old }
{
    if let Some(Put(index, value)) = put {
        put_on(disk, index, value);
    }
}

// Prints the entry that is put, if one is.
pub fn print_put(output: &mut Output, put: Option<Put>) {
    if let Some(Put(index, value)) = put {
        print_named(output, b", entry ", index as u64);
        print_named(output, b" is ", u64::from(value));
    }
}
