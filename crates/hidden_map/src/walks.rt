// The walk for a hidden number, from the root down, each step to the level below.
ghost use Rattle.std.specs.Prelude.{◌≡◌};
ghost use Rattle.model.specs.Geometry.{block_width};
ghost use Rattle.model.specs.Geometry as model;
ghost use Rattle.model.specs.Blocks.{block_at};
ghost use Rattle.model.specs.Layout.{Drive};
ghost use Rattle.layout.specs.Geometries.{geometry_of};
ghost use Rattle.hidden_map.specs.Ends.{end_of, step_of};
ghost use Rattle.hidden_map.specs.Trees.{TreeOf, WalkableAt};
ghost use Rattle.hidden_map.specs.Walks.{WalkedFrom, Walked};

use crate::branches::{Area, area_of, branch_at, is_well_formed};
use crate::nodes::{Nodes, no_nodes, set_node};
use layout::entries::entry_at;
use layout::geometry::Geometry;
use layout::numbers::{DiskAddress, HiddenNumber};

// Where a walk, or one step of it, ends: at an address, at 0, or at an ill-formed entry.
#[derive(Clone, Copy, PartialEq, Eq)]
pub enum Reached {
    Found(DiskAddress),
    Unmapped,
    Damaged,
}

// What a walk hands back, its trail: where it ended, and the nodes below the root that it read.
#[derive(Clone, Copy)]
pub struct Trail {
    pub end: Reached,
    pub nodes: Nodes,
}

// The numbers that a walk is given in place of a drive's geometry: the block size, and where its slots stand.
#[derive(Clone, Copy)]
struct Tree {
    size: u32,
    area: Area,
}

// Where a number's entry of a level leads that stands in the node at an address.
fn step(disk: &[u8], tree: &Tree, number: HiddenNumber, level: u32, address: DiskAddress) -> Reached
    requires { WalkableAt disk.now tree.now level address.0 }
    ensures { (g : model.Geometry) → TreeOf g disk.now tree.now →
        end_of result ≡ step_of g number.0 level (block_at (block_width g) disk.now address.0) }
{
    let before = (address.0 as usize) * (tree.size as usize / 4);
    let entry = entry_at(disk, before + branch_at(tree.size, number, level));
    if entry == 0 {
        return Reached::Unmapped;
    }
    if is_well_formed(tree.area, level, DiskAddress(entry)) {
        return Reached::Found(DiskAddress(entry));
    }
    Reached::Damaged
}

// The walk for a number from the node at an address down, by the level of the entry that it takes there:
// where it ends. The nodes that it reads are set.
fn walk_from(
    disk: &[u8],
    tree: &Tree,
    number: HiddenNumber,
    level: u32,
    address: DiskAddress,
    nodes: &mut Nodes,
) -> Reached
    requires { WalkableAt disk.now tree.now level address.0 }
    ensures { (g : model.Geometry) → TreeOf g disk.now tree.now →
        WalkedFrom g disk.now number.0 level
        (block_at (block_width g) disk.now address.0) result nodes.old nodes.new }
{
    let next = step(disk, tree, number, level, address);
    if level == 0 {
        return next;
    }
    let Reached::Found(node) = next else {
        return next;
    };
    set_node(nodes, level, node);
    let below = level - 1;
    walk_from(disk, tree, number, below, node, nodes)
}

// The walk for a number from the root.
pub fn walk(disk: &[u8], g: Geometry, number: HiddenNumber) -> Trail
    requires { Drive (geometry_of g) disk.now }
    ensures { Walked (geometry_of g) disk.now number.0 result }
{
    let area = area_of(g);
    let root = DiskAddress(area.start.0 - 1);
    let tree = Tree {
        size: g.block_size,
        area,
    };
    let mut nodes = no_nodes();
    let end = walk_from(disk, &tree, number, area.height - 1, root, &mut nodes);
    Trail { end, nodes }
}
