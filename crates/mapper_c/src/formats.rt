// Formatting, for C.
ghost use Rattle.std.specs.Prelude.{◌≡◌};
ghost use Rattle.model.specs.Refusals.{format_refusal};
ghost use Rattle.model.specs.Calls.{formatted};
ghost use Rattle.mapper_c.specs.Geometries.{geometry_for};

use layout::geometry::Geometry;
use layout::refusals::answer_number;
use mapper::format_drive;

// Formats a disk for the geometry of these five numbers and answers 0; answers 1 or 2 and changes no byte
// where it refuses.
#[unsafe(no_mangle)]
pub extern "C" fn pddm_format(
    disk: &mut [u8],
    block_size: u32,
    height: u32,
    publics: u32,
    hidden: u32,
    slots: u32,
) -> u32
    ensures answered { result ≡
        format_refusal disk.old (geometry_for block_size height publics hidden slots) }
    ensures stored { disk.new ≡
        formatted disk.old (geometry_for block_size height publics hidden slots) }
{
    let geometry = Geometry {
        block_size,
        height,
        publics,
        hidden,
        slots,
    };
    answer_number(format_drive(disk, geometry)) as u32
}
