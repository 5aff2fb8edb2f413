// The nodes below the root that a walk read, by level.
ghost use Rattle.std.specs.Prelude.{◌≡◌, ℕ, ◌≤◌};
ghost use Rattle.std.proofs.Math.Option.{none};
ghost use Rattle.hidden_map.specs.Nodes.{node_of, address_at, with_address};

use layout::numbers::DiskAddress;

// Where the nodes of levels 1, 2 and 3 were read, the leaf's first; none for a level that was not reached, as
// those from k on never are.
#[derive(Clone, Copy)]
pub struct Nodes {
    pub by_level: [Option<DiskAddress>; 3],
}

// No level's node is reached.
pub fn no_nodes() -> Nodes
    ensures { (level : ℕ) → address_at result level ≡ none }
{
    Nodes {
        by_level: [None, None, None],
    }
}

// Where the node of a level was read.
pub fn node_at(nodes: Nodes, level: u32) -> Option<DiskAddress>
    requires { (1 ≤ level) × (level ≤ 3) }
    ensures { node_of result ≡ address_at nodes level }
{
    let index = level as usize - 1;
    nodes.by_level[index]
}

// The node of a level is set, as read at an address.
pub fn set_node(nodes: &mut Nodes, level: u32, address: DiskAddress)
    requires { (1 ≤ level) × (level ≤ 3) }
    ensures { (wanted : ℕ) →
        address_at nodes.new wanted ≡ with_address (address_at nodes.old) level address.0 wanted }
{
    nodes.by_level[level as usize - 1] = Some(address);
}
