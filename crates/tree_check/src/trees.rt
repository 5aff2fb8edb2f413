// The call: refusals 1 to 3, then the first fault of the tree.
ghost use Rattle.std.specs.Prelude.{◌≡◌};
ghost use Rattle.model.specs.TreeCheck.{tree_refusal};
ghost use Rattle.layout.specs.Refusals.{answer_number};

use crate::nodes::check_node;
use crate::spans::entries_in;
use layout::drives::open_drive;
use layout::geometry::root_address;
use layout::numbers::HiddenNumber;
use layout::refusals::Refusal;

// 1 to 3 of a drive, then 13 to 15 of its hidden tree, the first that is met from the first root entry on.
// Nothing is changed.
pub fn check_tree(disk: &[u8]) -> Result<(), Refusal>
    ensures { answer_number result ≡ tree_refusal disk.now }
{
    let g = open_drive(disk)?;
    let top = g.height - 1;
    let count = entries_in(g, top);
    check_node(disk, g, top, HiddenNumber(0), root_address(g), 0, count)
}
