// Recovery (document 02, K5), for C.
ghost use Rattle.recovery.specs.Drives.{RecoveredAs};

use layout::refusals::answer_number;
use mapper::recover;

// Rebuilds the bitmap from the public map; a refused recovery changes no byte.
#[unsafe(no_mangle)]
pub extern "C" fn pddm_recover(disk: &mut [u8]) -> u32
    ensures { RecoveredAs disk.old disk.new result }
{
    answer_number(recover(disk)) as u32
}
