// What is asked of where a walk ended.
ghost use Rattle.std.specs.Prelude.{◌≡◌};
ghost use Rattle.model.specs.HiddenTree.{is_found_at, is_damaged};
ghost use Rattle.hidden_map.specs.Ends.{end_of};

use crate::walks::Reached;
use layout::numbers::DiskAddress;

// Whether a walk ended at an address.
pub fn is_at(end: Reached, address: DiskAddress) -> bool
    ensures { result ≡ is_found_at address.0 (end_of end) }
{
    end == Reached::Found(address)
}

// Whether a walk ended at an ill-formed entry.
pub fn is_damaged(end: Reached) -> bool
    ensures { result ≡ is_damaged (end_of end) }
{
    end == Reached::Damaged
}
