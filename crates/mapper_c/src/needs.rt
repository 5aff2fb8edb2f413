// What a write takes now, for C.
ghost use Rattle.std.specs.Prelude.{◌≡◌};
ghost use Rattle.mapper_c.specs.Needs.{needed_write};

use answers_c::needs::Needs;
use layout::numbers::PublicNumber;
use mapper::write_needs;

// What a write of one block of data takes now; 1 to 4, 6 or 7 and zeros where no buffers would do.
#[unsafe(no_mangle)]
pub extern "C" fn pddm_write_needs(disk: &[u8], number: u32) -> Needs
    ensures { result ≡ needed_write disk.now number }
{
    Needs::from(write_needs(disk, PublicNumber(number)))
}
