// Descriptors of a path that is stored in a slot: its nodes from the leaf up, its data, the root.
ghost use Rattle.std.specs.Prelude.{◌≡◌, ◌-◌, ◌+◌, ◌<◌};
ghost use Rattle.std.proofs.Math.Option.{none};
ghost use Rattle.model.specs.Geometry.{Fits, root_address, block_width};
ghost use Rattle.model.specs.Blocks.{block_at};
ghost use Rattle.model.specs.Layout.{level_address};
ghost use Rattle.model.specs.Stores.{store};
ghost use Rattle.model.specs.Paths.{linked_node, path_stores};
ghost use Rattle.layout.specs.Geometries.{geometry_of};
ghost use Rattle.hidden_map.specs.Nodes.{address_at, block_of_node, path_blocks, StandsByLevel};
ghost use Rattle.plans.specs.HiddenPlans.{data_of, offered_in};
ghost use Rattle.stores.specs.Described.{store_at, Describes};
ghost use Rattle.slot_stores.specs.Slots.{SlotPlace};
ghost use Rattle.slot_stores.specs.Sources.{node_source, data_source};

use hidden_map::branches::branch_at;
use hidden_map::nodes::{Nodes, node_at};
use layout::geometry::{Geometry, fanout, root_address};
use layout::levels::level_address;
use layout::numbers::{DiskAddress, HiddenNumber};
use plans::hidden_plans::Data;
use stores::changes::Change;
use stores::descriptors::{Descriptor, Source, own, plain};

// Where a path's node is taken from: the disk, or zeros where it was not reached.
fn node_source(node: Option<DiskAddress>) -> Source
    ensures { result ≡ node_source node }
{
    match node {
        Some(address) => Source::Disk(address),
        None => Source::Zeros,
    }
}

// A path's node of a level: its entry leads to the slot's block of the level below, and a leaf's last entry
// is the number.
fn node_store(g: Geometry, slot: u32, number: HiddenNumber, nodes: Nodes, level: u32) -> Descriptor
    requires slot_place { SlotPlace (geometry_of g) slot 1 (geometry_of g).height level }
    requires stands_by_level { StandsByLevel (geometry_of g) (address_at nodes) }
    ensures { Describes (geometry_of g) none level (λ disk content blocks random.
        store (level_address (geometry_of g) slot level)
        (linked_node (geometry_of g) number.0 slot (level - 1)
        (block_of_node (geometry_of g) disk (address_at nodes level)))) result }
{
    let address = level_address(g, slot, level);
    let source = node_source(node_at(nodes, level));
    let under = level - 1;
    let below = level_address(g, slot, under);
    let branch = branch_at(g.block_size, number, under);
    let first = Change::Entry(branch, below.0);
    if level == 1 {
        let last = fanout(g) as usize - 1;
        return Descriptor {
            address,
            source,
            first,
            second: Change::Entry(last, number.0),
        };
    }
    Descriptor {
        address,
        source,
        first,
        second: Change::Nothing,
    }
}

// Where a path's data is taken from: the slot itself, or what is offered.
fn data_source(own: DiskAddress, data: Data) -> Source
    ensures { result ≡ data_source own «data» }
{
    match data {
        Data::Own => Source::Disk(own),
        Data::Offered(place) => Source::Offered(place),
    }
}

// A path's data, the slot's last block.
fn data_store(g: Geometry, slot: u32, data: Data) -> Descriptor
    requires fits { Fits (geometry_of g) }
    requires slot_lt_slots { slot < g.slots }
    ensures { Describes (geometry_of g) (offered_in «data») (geometry_of g).height
        (λ disk content blocks random. store (level_address (geometry_of g) slot 0)
        (data_of «data» (geometry_of g) disk slot blocks)) result }
{
    let address = level_address(g, slot, 0);
    plain(address, data_source(address, data))
}

// The root, a number's entry in it leading to the slot.
fn root_store(g: Geometry, slot: u32, number: HiddenNumber) -> Descriptor
    requires fits { Fits (geometry_of g) }
    requires slot_lt_slots { slot < g.slots }
    ensures { Describes (geometry_of g) none ((geometry_of g).height + 1) (λ disk content blocks random.
        store (root_address (geometry_of g)) (linked_node (geometry_of g) number.0 slot
        ((geometry_of g).height - 1)
        (block_at (block_width (geometry_of g)) disk (root_address (geometry_of g))))) result }
{
    let root = root_address(g);
    let top = g.height - 1;
    let below = level_address(g, slot, top);
    let branch = branch_at(g.block_size, number, top);
    own(root, Change::Entry(branch, below.0), Change::Nothing)
}

// A number's path in a slot, by its places: the nodes of levels 1 to k - 1, the data, the root.
pub fn path_store(
    g: Geometry,
    slot: u32,
    number: HiddenNumber,
    nodes: Nodes,
    data: Data,
    place: u32,
) -> Descriptor
    requires slot_place { SlotPlace (geometry_of g) slot 1 ((geometry_of g).height + 2) place }
    requires stands_by_level { StandsByLevel (geometry_of g) (address_at nodes) }
    ensures { Describes (geometry_of g) (offered_in «data») place (λ disk content blocks random.
        store_at (place - 1) (path_stores (geometry_of g) number.0 slot
        (data_of «data» (geometry_of g) disk slot blocks)
        (path_blocks (geometry_of g) disk (address_at nodes)))) result }
{
    if place < g.height {
        return node_store(g, slot, number, nodes, place);
    }
    if place == g.height {
        return data_store(g, slot, data);
    }
    root_store(g, slot, number)
}
