// Rows of a drive and its hidden tree: an entry, the whole-tree check (document 02, K1), and where the walk
// for a number reads the node of a level (K7).
ghost use Rattle.std.specs.Prelude.{◌≡◌};
ghost use Rattle.hidden_map.specs.Nodes.{node_of, address_at};
ghost use Rattle.figures.specs.Trees.{address_told, node_on, told_by, tree_agrees};

use crate::drives::{Drive, Made, print_drive, small_drive};
use figure_lines::lines::{Put, entry_or, part_of, print_named};
use figure_lines::output::{Output, put_bytes};
use figure_lines::rows::Row;
use hidden_map::nodes::{Nodes, node_at};
use hidden_map::walks::walk;
use layout::drives::open_drive;
use layout::numbers::{DiskAddress, HiddenNumber};
use layout::refusals::answer_number;
use mapper::check_tree;

// What is asked.
#[derive(Clone, Copy)]
pub enum Asked {
    // an entry, by its index over the whole disk
    Entry(usize),
    // what the check answers
    Check,
    // where the walk for a number reads the node of a level
    Walk(u32, u32),
}

// How the drive is made, two entries put or none, the bytes lent, what is asked; the answer, none for the
// address of no node.
#[derive(Clone, Copy)]
pub struct TreeRow(
    pub Made,
    pub Option<Put>,
    pub Option<Put>,
    pub usize,
    pub Asked,
    pub Option<u32>,
);

// ---- the walk's nodes ----

// Where a node is read, none where it was not reached.
fn address_of(node: Option<DiskAddress>) -> Option<u32>
    ensures { result ≡ address_told (node_of node) }
{
    node.map(|address| address.0)
}

fn address_at(nodes: Nodes, level: u32) -> Option<u32>
    ensures { result ≡ address_told (address_at nodes level) }
{
    if level < 1 {
        return None;
    }
    if 3 < level {
        return None;
    }
    address_of(node_at(nodes, level))
}

// Where the walk for a number reads the node of a level; none on a disk that refusals 1 to 3 meet.
fn node_on(disk: &[u8], number: u32, level: u32) -> Option<u32>
    ensures { result ≡ node_on disk.now number level }
{
    match open_drive(disk) {
        Err(_) => None,
        Ok(g) => {
            let trail = walk(disk, g, HiddenNumber(number));
            let nodes = trail.nodes;
            address_at(nodes, level)
        }
    }
}

// ---- a row ----

// What a disk answers.
fn told_by(disk: &[u8], asked: Asked) -> Option<u32>
    ensures { result ≡ told_by disk.now asked }
{
    match asked {
        Asked::Entry(index) => Some(entry_or(disk, index)),
        Asked::Check => Some(u32::from(answer_number(check_tree(disk)))),
        Asked::Walk(number, level) => node_on(disk, number, level),
    }
}

fn print_asked(output: &mut Output, asked: Asked) {
    match asked {
        Asked::Entry(index) => print_named(output, b"entry ", index as u64),
        Asked::Check => put_bytes(output, b"check"),
        Asked::Walk(number, level) => {
            print_named(output, b"walk for ", u64::from(number));
            print_named(output, b", node of level ", u64::from(level));
        }
    }
}

// Prints an answer, "none" for the address of no node.
fn print_told(output: &mut Output, text: &[u8], told: Option<u32>) {
    put_bytes(output, text);
    match told {
        Some(number) => print_named(output, b"", u64::from(number)),
        None => put_bytes(output, b"none"),
    }
}

impl Row for TreeRow {
    ghost agrees = { tree_agrees };

    fn run(self, output: &mut Output) -> bool {
        let drive = Drive {
            made: self.0,
            put: self.1,
            later: self.2,
        };
        let bytes = self.3;
        print_drive(output, drive, bytes);
        print_asked(output, self.4);
        let disk = small_drive(drive);
        let told = told_by(part_of(&disk, bytes), self.4);
        print_told(output, b" expected ", self.5);
        print_told(output, b" got ", told);
        put_bytes(output, b"\n");
        self.5 == told
    }
}
