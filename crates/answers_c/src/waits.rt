// How long an offer waits, as C is told.
ghost use Rattle.std.specs.Prelude.{◌≡◌};
ghost use Rattle.questions.specs.Waits.{wait_of};
ghost use Rattle.answers_c.specs.Waits.{wait_said};

use layout::refusals::{Refusal, refusal_number};

// 0 or the refusal, and the round in which the first offer that waits is placed; 0 after a refusal.
#[repr(C)]
#[derive(Clone, Copy)]
pub struct Waited {
    pub answer: u32,
    pub rounds: u32,
}

// The mapper's rounds, in the fields of the struct.
impl From<Result<u32, Refusal>> for Waited {
    ghost from_gives = { λ told said. said ≡ wait_said (wait_of told) };

    fn from(told: Result<u32, Refusal>) -> Waited {
        match told {
            Ok(round) => Waited {
                answer: 0,
                rounds: round,
            },
            Err(refusal) => Waited {
                answer: refusal_number(refusal) as u32,
                rounds: 0,
            },
        }
    }
}
