// Nodes and entries: a node goes through its entries by halves down to one, and each entry goes on to its
// node, one level lower, which the walk of its slot's owner has read. Level and remaining entries fall.
ghost use Rattle.std.specs.Prelude.{◌≡◌, ◌+◌, ◌*◌, ◌<◌};
ghost use Rattle.model.specs.Geometry.{block_width};
ghost use Rattle.model.specs.Blocks.{block_at, entry_at};
ghost use Rattle.model.specs.HiddenTree.{span};
ghost use Rattle.model.specs.Invariants.{entries_in};
ghost use Rattle.model.specs.TreeCheck.{met_at, met_in_turn, first_fault};
ghost use Rattle.layout.specs.Geometries.{geometry_of};
ghost use Rattle.layout.specs.Refusals.{answer_number};
ghost use Rattle.tree_check.specs.Nodes.{NodeOf, EntriesOf, EntryIn, PlaceIn};

use crate::entries::test_entry;
use crate::spans::{entries_in, span_of};
use hidden_map::nodes::node_at;
use layout::blocks::block_at;
use layout::entries::entry_at;
use layout::geometry::Geometry;
use layout::numbers::{DiskAddress, HiddenNumber};
use layout::refusals::Refusal;

// The entry at a place of the node at an address.
fn read_entry(disk: &[u8], g: Geometry, node: DiskAddress, place: u32) -> DiskAddress
    requires { EntryIn (geometry_of g) disk.now node.0 place }
    ensures { result.0 ≡
        entry_at place (block_at (block_width (geometry_of g)) disk.now node.0) }
{
    DiskAddress(entry_at(block_at(disk, g, node), place as usize))
}

// The first number below the entry at a place of a node whose numbers begin with this one.
fn first_below(g: Geometry, level: u32, first: HiddenNumber, place: u32) -> u64
    requires { PlaceIn (geometry_of g) level place }
    ensures { result ≡ first.0 + place * span (geometry_of g) level }
{
    first.0 as u64 + (place as u64) * span_of(g, level)
}

// The first fault at a place of a node or below it: the entry's own fault, then its node's, which the walk of
// its slot's owner has read.
#[cycle(check_entry_check_node)]
fn check_entry(
    disk: &[u8],
    g: Geometry,
    level: u32,
    first: HiddenNumber,
    node: DiskAddress,
    place: u32,
) -> Result<(), Refusal>
    requires node_of { NodeOf (geometry_of g) disk.now level first.0 node.0 }
    requires place_bound { place < entries_in (geometry_of g) level }
    ensures { answer_number result ≡ first_fault (geometry_of g) disk.now
        (met_at (geometry_of g) disk.now level first.0
        (block_at (block_width (geometry_of g)) disk.now node.0) place) }
{
    let entry = read_entry(disk, g, node, place);
    if entry.0 == 0 {
        return Ok(());
    }
    let start = first_below(g, level, first, place);
    let nodes = test_entry(disk, g, level, start, entry)?;
    if level == 0 {
        return Ok(());
    }
    let below = node_at(nodes, level).unwrap();
    let lower = level - 1;
    let count = entries_in(g, lower);
    check_node(disk, g, lower, HiddenNumber(start as u32), below, 0, count)
}

// The first fault of so many of a node's entries from a place on, each with what is below it.
#[cycle(check_entry_check_node)]
pub fn check_node(
    disk: &[u8],
    g: Geometry,
    level: u32,
    first: HiddenNumber,
    node: DiskAddress,
    place: u32,
    remaining: u32,
) -> Result<(), Refusal>
    requires { EntriesOf (geometry_of g) disk.now level first.0 node.0 place remaining }
    ensures { answer_number result ≡ first_fault (geometry_of g) disk.now
        (met_in_turn (met_at (geometry_of g) disk.now level first.0
        (block_at (block_width (geometry_of g)) disk.now node.0)) remaining place) }
{
    if remaining == 1 {
        return check_entry(disk, g, level, first, node, place);
    }
    let half = remaining / 2;
    check_node(disk, g, level, first, node, place, half)?;
    let rest = remaining - half;
    let next = place + half;
    check_node(disk, g, level, first, node, next, rest)
}
