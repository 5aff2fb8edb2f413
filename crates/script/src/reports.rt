// The listing's output: the heading, and a line for each line of input.
ghost use Rattle.std.specs.Prelude.{[], ◌∷◌, ◌++◌, ◌+◌, ◌*◌, ◌≤◌, length};
ghost use Rattle.script.specs.Texts.{Put, space, comma, decimal};
ghost use Rattle.script.specs.Reports.{heading, field, outcome_text, later_text, stores_text, counts_text};
ghost use Rattle.script.specs.Reports.{report_line, stores_room, report_room};

use crate::texts::{put_number, put_text};
use layout::numbers::DiskAddress;

// Puts the heading.
pub fn put_heading(out: &mut [u8]) -> usize
    requires { length heading ≤ length out.old }
    ensures { Put heading out.old 0 out.new result }
{
    put_text(out, 0, b"line answer rounds hidden head stores\n")
}

// Puts a number and a space.
fn put_field(out: &mut [u8], at: usize, value: u64) -> usize
    requires { at + length (field value) ≤ length out.old }
    ensures { Put (field value) out.old at out.new result }
{
    let last = put_number(out, at, value);
    out[last] = 32;
    last + 1
}

// Puts the word or the number of a hidden outcome.
fn put_word(out: &mut [u8], at: usize, outcome: u8) -> usize
    requires { at + 9 ≤ length out.old }
    ensures { Put (outcome_text outcome) out.old at out.new result }
{
    match outcome {
        0 => put_text(out, at, b"none"),
        1 => put_text(out, at, b"placed"),
        2 => put_text(out, at, b"waiting"),
        3 => put_text(out, at, b"not tried"),
        _ => put_number(out, at, outcome as u64),
    }
}

// Puts a hidden outcome and a space.
fn put_outcome(out: &mut [u8], at: usize, outcome: u8) -> usize
    requires { at + 10 ≤ length out.old }
    ensures { Put (outcome_text outcome ++ (space ∷ [])) out.old at out.new result }
{
    let last = put_word(out, at, outcome);
    out[last] = 32;
    last + 1
}

// Puts the address of a store.
fn put_address(out: &mut [u8], at: usize, address: DiskAddress) -> usize
    requires { at + length (decimal address.0) ≤ length out.old }
    ensures { Put (decimal address.0) out.old at out.new result }
{
    put_number(out, at, address.0 as u64)
}

// Puts a comma and a store.
fn put_store(out: &mut [u8], at: usize, store: DiskAddress) -> usize
    requires { at + 11 ≤ length out.old }
    ensures { Put (comma ∷ decimal store.0) out.old at out.new result }
{
    out[at] = 44;
    put_address(out, at + 1, store)
}

// Puts stores, a comma before each.
fn put_later(out: &mut [u8], at: usize, stores: &[u32]) -> usize
    requires { at + 11 * length stores.now ≤ length out.old }
    ensures { Put (later_text stores.now) out.old at out.new result }
{
    let mut next = at;
    for store in stores {
        next = put_store(out, next, DiskAddress(*store));
    }
    next
}

// Puts stores, separated by commas, or `-` for none.
fn put_stores(out: &mut [u8], at: usize, stores: &[u32]) -> usize
    requires { at + stores_room (length stores.now) ≤ length out.old }
    ensures { Put (stores_text stores.now) out.old at out.new result }
{
    match stores {
        [] => {
            out[at] = 45;
            at + 1
        }
        [first, later @ ..] => {
            let next = put_address(out, at, DiskAddress(*first));
            put_later(out, next, later)
        }
    }
}

// Puts a line's number, answer and rounds at the front.
fn put_counts(out: &mut [u8], line: u64, answer: u8, rounds: u32) -> usize
    requires { 36 ≤ length out.old }
    ensures { Put (counts_text line answer rounds) out.old 0 out.new result }
{
    let after_line = put_field(out, 0, line);
    let after_answer = put_field(out, after_line, answer as u64);
    put_field(out, after_answer, rounds as u64)
}

// Puts a line of the listing at the front, with its newline, and answers its length. The outcome is given by
// its number, and all stores of the slice are listed. Lines are counted in 64 bits: a large file can have
// more than 2^32.
pub fn put_report(
    out: &mut [u8],
    line: u64,
    answer: u8,
    rounds: u32,
    outcome: u8,
    head: u32,
    stores: &[u32],
) -> usize
    requires { report_room (length stores.now) ≤ length out.old }
    ensures { Put (report_line line answer rounds outcome head stores.now) out.old 0
        out.new result }
{
    let after_rounds = put_counts(out, line, answer, rounds);
    let after_outcome = put_outcome(out, after_rounds, outcome);
    let after_head = put_field(out, after_outcome, head as u64);
    let last = put_stores(out, after_head, stores);
    out[last] = 10;
    last + 1
}
