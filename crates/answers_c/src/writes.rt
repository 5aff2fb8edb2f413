// What a write came to, as C is told: with an offer or without one.
ghost use Rattle.std.specs.Prelude.{◌≡◌};
ghost use Rattle.mapper.specs.Writes.{told_by_write};
ghost use Rattle.answers_c.specs.Writes.{written_said};

use layout::refusals::{Refusal, refusal_number};
use mapper::{Outcome, outcome_number};

// 0 or the refusal, the rounds, the stores, and what has become of the offer: 0 none was made, 1 placed,
// 2 waiting, 3 not tried, 10, 11 or 12.
#[repr(C)]
#[derive(Clone, Copy)]
pub struct Written {
    pub answer: u32,
    pub rounds: u32,
    pub stores: u32,
    pub outcome: u32,
}

// What the mapper's write told, its outcome as a number; no rounds, no stores and not tried after a refusal.
impl From<Result<mapper::Written, Refusal>> for Written {
    ghost from_gives = { λ told said. said ≡ written_said (told_by_write told) };

    fn from(told: Result<mapper::Written, Refusal>) -> Written {
        match told {
            Ok(written) => Written {
                answer: 0,
                rounds: written.rounds,
                stores: written.stores,
                outcome: outcome_number(written.outcome) as u32,
            },
            Err(refusal) => Written {
                answer: refusal_number(refusal) as u32,
                rounds: 0,
                stores: 0,
                outcome: outcome_number(Outcome::NotTried) as u32,
            },
        }
    }
}
