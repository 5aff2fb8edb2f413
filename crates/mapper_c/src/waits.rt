// How long an offer waits (document 02, K12), for C.
ghost use Rattle.std.specs.Prelude.{◌≡◌};
ghost use Rattle.questions.specs.Waits.{wait_in};
ghost use Rattle.answers_c.specs.Waits.{wait_said};

use answers_c::waits::Waited;
use mapper::wait_rounds;

// In which round from here on the first offer that waits is placed, on a drive that passes the check; 1 to 3
// and 0 where the disk is no drive. Nothing is changed.
#[unsafe(no_mangle)]
pub extern "C" fn pddm_wait_rounds(disk: &[u8]) -> Waited
    ensures { result ≡ wait_said (wait_in disk.now) }
{
    Waited::from(wait_rounds(disk))
}
