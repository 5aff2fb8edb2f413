// Holds the code to document 01's figures ("Figures to hold against"), to the examples of its refusal table,
// and to document 02's figures of K1, K2, K4 and K7, of K3 by the tables of `line_figures`, of K12 by those
// of `wait_figures` and of K5 by those of `recovery_figures`. A row of a table says what is done and what the
// document says: the order of its fields stands above the table, and their meaning with the row's type.
// Each figure is printed as a line, and at the end how many rows of each table agree.
#![tactic(auto)]

use crate::ask_rows::{identity_rows, needs_rows, read_rows};
use crate::layout_rows::{format_rows, size_rows};
use crate::tree_rows::tree_rows;
use crate::write_rows::{refused_rows, write_rows};
use figure_lines::lines::print_count;
use figure_lines::output::{finish, output_on};
use line_figures::line_rows::{enter_rows, line_write_rows};
use recovery_figures::recovery_rows::{cut_rows, line_cut_rows, map_rows};
use std::io;
use wait_figures::wait_rows::{carry_rows, offer_rows, wait_rows};

mod drives; // a row's drive
mod layouts; // sizes, areas and formatting
mod asks; // which drive it is, reads, and what a write takes
mod trees; // entries, the whole-tree check, the walk's nodes
mod writes; // writes
mod ask_rows;
mod layout_rows;
mod tree_rows;
mod write_rows;

fn main(rt: HostRuntime) -> io::Result<()> {
    let mut output = output_on(rt.stdout());
    let sizes = size_rows(&mut output);
    let formats = format_rows(&mut output);
    let identities = identity_rows(&mut output);
    let reads = read_rows(&mut output);
    let needs = needs_rows(&mut output);
    let trees = tree_rows(&mut output);
    let refusals = refused_rows(&mut output);
    let writes = write_rows(&mut output);
    let enters = enter_rows(&mut output);
    let lines = line_write_rows(&mut output);
    let waits = wait_rows(&mut output);
    let offers = offer_rows(&mut output);
    let carries = carry_rows(&mut output);
    let cuts = cut_rows(&mut output);
    let line_cuts = line_cut_rows(&mut output);
    let maps = map_rows(&mut output);
    print_count(&mut output, b"size rows that agree", 7, sizes);
    print_count(&mut output, b"format rows that agree", 33, formats);
    print_count(&mut output, b"identity rows that agree", 6, identities);
    print_count(&mut output, b"read rows that agree", 23, reads);
    print_count(&mut output, b"needs rows that agree", 4, needs);
    print_count(&mut output, b"tree rows that agree", 34, trees);
    print_count(&mut output, b"refused rows that agree", 13, refusals);
    print_count(&mut output, b"write rows that agree", 16, writes);
    print_count(&mut output, b"enter rows that agree", 8, enters);
    print_count(&mut output, b"line rows that agree", 12, lines);
    print_count(&mut output, b"wait rows that agree", 6, waits);
    print_count(&mut output, b"offer rows that agree", 8, offers);
    print_count(&mut output, b"carry rows that agree", 5, carries);
    print_count(&mut output, b"cut rows that agree", 8, cuts);
    print_count(&mut output, b"line cut rows that agree", 3, line_cuts);
    print_count(&mut output, b"map rows that agree", 11, maps);
    finish(output)
}
