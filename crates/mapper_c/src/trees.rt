// The check of the whole hidden tree, for C.
ghost use Rattle.std.specs.Prelude.{◌≡◌};
ghost use Rattle.model.specs.TreeCheck.{tree_refusal};

use layout::refusals::answer_number;
use mapper::check_tree;

// 0 for a drive whose hidden tree is sound; 1 to 3, or 13, 14 or 15 for its first fault. Nothing is changed.
#[unsafe(no_mangle)]
pub extern "C" fn pddm_check_tree(disk: &[u8]) -> u32
    ensures { result ≡ tree_refusal disk.now }
{
    answer_number(check_tree(disk)) as u32
}
