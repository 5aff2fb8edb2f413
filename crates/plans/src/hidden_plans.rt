// What the hidden half of a round is to store.
use hidden_map::nodes::Nodes;
use layout::numbers::HiddenNumber;

// The data that a path is stored with: the slot's own, kept, or what is offered, the block at a place of the
// lent ones.
#[derive(Clone, Copy)]
pub enum Data {
    Own,
    Offered(u32),
}

// The slot's blocks and the root written back for damage; the path of a number, whose walk read these nodes,
// with the slot's own data or with what is offered; or random bytes.
#[derive(Clone, Copy)]
pub enum HiddenPlan {
    Back,
    Path(HiddenNumber, Nodes, Data),
    Fill,
}
