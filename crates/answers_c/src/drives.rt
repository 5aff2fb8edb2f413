// Which drive a disk is, and how large a drive is, as C is told.
ghost use Rattle.std.specs.Prelude.{◌≡◌};
ghost use Rattle.questions.specs.Drives.{identity_of, size_of};
ghost use Rattle.answers_c.specs.Drives.{identity_said, size_said};

use layout::refusals::{Refusal, refusal_number};

// 0 or the refusal, and the six numbers of the header: B, k, P, H, M and the head; zeros after a refusal.
#[repr(C)]
#[derive(Clone, Copy)]
pub struct Identified {
    pub answer: u32,
    pub block_size: u32,
    pub height: u32,
    pub publics: u32,
    pub hidden: u32,
    pub slots: u32,
    pub head: u32,
}

// The mapper's geometry and head, in the fields of the struct.
impl From<Result<questions::drives::Identified, Refusal>> for Identified {
    ghost from_gives = { λ told said. said ≡ identity_said (identity_of told) };

    fn from(told: Result<questions::drives::Identified, Refusal>) -> Identified {
        match told {
            Ok(identified) => {
                let geometry = identified.geometry;
                Identified {
                    answer: 0,
                    block_size: geometry.block_size,
                    height: geometry.height,
                    publics: geometry.publics,
                    hidden: geometry.hidden,
                    slots: geometry.slots,
                    head: identified.head,
                }
            }
            Err(refusal) => Identified {
                answer: refusal_number(refusal) as u32,
                block_size: 0,
                height: 0,
                publics: 0,
                hidden: 0,
                slots: 0,
                head: 0,
            },
        }
    }
}

// 0 or 1, and the drive's size in blocks and in bytes; zeros after 1.
#[repr(C)]
#[derive(Clone, Copy)]
pub struct Size {
    pub answer: u32,
    pub blocks: u32,
    pub bytes: u64,
}

// The mapper's blocks and bytes, in the fields of the struct.
impl From<Result<questions::drives::Size, Refusal>> for Size {
    ghost from_gives = { λ told said. said ≡ size_said (size_of told) };

    fn from(told: Result<questions::drives::Size, Refusal>) -> Size {
        match told {
            Ok(size) => Size {
                answer: 0,
                blocks: size.blocks,
                bytes: size.bytes,
            },
            Err(outside) => Size {
                answer: refusal_number(outside) as u32,
                blocks: 0,
                bytes: 0,
            },
        }
    }
}
