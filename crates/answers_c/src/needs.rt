// What a write takes, as C is told.
ghost use Rattle.std.specs.Prelude.{◌≡◌};
ghost use Rattle.questions.specs.Needs.{needed_of};
ghost use Rattle.answers_c.specs.Needs.{needs_said};

use layout::refusals::{Refusal, refusal_number};

// 0 or the refusal, the rounds, the stores that the list is to have room for, and the random bytes, counted
// in blocks; zeros after a refusal.
#[repr(C)]
#[derive(Clone, Copy)]
pub struct Needs {
    pub answer: u32,
    pub rounds: u32,
    pub stores: u32,
    pub random_blocks: u32,
}

// The mapper's count, in the fields of the struct.
impl From<Result<questions::needs::Needs, Refusal>> for Needs {
    ghost from_gives = { λ told said. said ≡ needs_said (needed_of told) };

    fn from(told: Result<questions::needs::Needs, Refusal>) -> Needs {
        match told {
            Ok(needs) => Needs {
                answer: 0,
                rounds: needs.rounds,
                stores: needs.stores,
                random_blocks: needs.random_blocks,
            },
            Err(refusal) => Needs {
                answer: refusal_number(refusal) as u32,
                rounds: 0,
                stores: 0,
                random_blocks: 0,
            },
        }
    }
}
