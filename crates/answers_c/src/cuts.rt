// What a write that is cut came to, as C is told.
ghost use Rattle.std.specs.Prelude.{◌≡◌};
ghost use Rattle.mapper.specs.Cuts.{cut_answer_of};
ghost use Rattle.answers_c.specs.Cuts.{cut_said};

use layout::refusals::{Refusal, refusal_number};
use mapper::CutWritten;

// 0 or the refusal, the stores that were made, and 1 where others were left out.
#[repr(C)]
#[derive(Clone, Copy)]
pub struct Cut {
    pub answer: u32,
    pub stores: u32,
    pub cut: u32,
}

// What the mapper's write told; no stores, and not cut, after a refusal.
impl From<Result<CutWritten, Refusal>> for Cut {
    ghost from_gives = { λ told said. said ≡ cut_said (cut_answer_of told) };

    fn from(told: Result<CutWritten, Refusal>) -> Cut {
        match told {
            Ok(written) => Cut {
                answer: 0,
                stores: written.stores,
                cut: u32::from(written.is_cut),
            },
            Err(refusal) => Cut {
                answer: refusal_number(refusal) as u32,
                stores: 0,
                cut: 0,
            },
        }
    }
}
