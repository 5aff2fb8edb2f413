// Where a block stands, as C is told: on the drive, or among the lent blocks.
ghost use Rattle.std.specs.Prelude.{◌≡◌};
ghost use Rattle.reads.specs.Finds.{find_of};
ghost use Rattle.line_calls.specs.Finds.{line_find_of};
ghost use Rattle.answers_c.specs.Finds.{found_of, found_line_of};

use layout::numbers::DiskAddress;
use layout::refusals::{Refusal, refusal_number};
use line_calls::finds::LineFind;

// 0 or the refusal; the kind, 0 refused, 1 the blank, 2 the block at the address, 3 the lent block at that
// place; the address in blocks, 0 where the kind is neither 2 nor 3.
#[repr(C)]
#[derive(Clone, Copy)]
pub struct Found {
    pub answer: u32,
    pub kind: u32,
    pub address: u32,
}

// What is found, in the fields of the struct.
impl From<Result<Option<DiskAddress>, Refusal>> for Found {
    ghost from_gives = { λ told said. said ≡ found_of (find_of told) };

    fn from(find: Result<Option<DiskAddress>, Refusal>) -> Found {
        match find {
            Err(refusal) => Found {
                answer: refusal_number(refusal) as u32,
                kind: 0,
                address: 0,
            },
            Ok(None) => Found {
                answer: 0,
                kind: 1,
                address: 0,
            },
            Ok(Some(address)) => Found {
                answer: 0,
                kind: 2,
                address: address.0,
            },
        }
    }
}

// Likewise where offers wait: kind 3 is a block among the lent ones, its place the address.
impl From<Result<LineFind, Refusal>> for Found {
    ghost from_gives = { λ told said. said ≡ found_line_of (line_find_of told) };

    fn from(find: Result<LineFind, Refusal>) -> Found {
        let on_drive: Result<Option<DiskAddress>, Refusal> = match find {
            Err(refusal) => Err(refusal),
            Ok(LineFind::Blank) => Ok(None),
            Ok(LineFind::Drive(address)) => Ok(Some(address)),
            Ok(LineFind::Lent(place)) => {
                return Found {
                    answer: 0,
                    kind: 3,
                    address: place,
                };
            }
        };
        Found::from(on_drive)
    }
}
