// What a write with a line came to, as C is told.
ghost use Rattle.std.specs.Prelude.{◌≡◌};
ghost use Rattle.mapper.specs.Writes.{told_by_line_write};
ghost use Rattle.answers_c.specs.LineWrites.{line_written_said};

use layout::refusals::{Refusal, refusal_number};
use line::offers::{Line, held};
use mapper::{Outcome, outcome_number};

// 0 or the refusal, the rounds, the stores, what has become of the line's offers (0 none counts, 1 placed,
// 2 waiting, 3 not tried, 12), how many were placed, and how many wait now.
#[repr(C)]
#[derive(Clone, Copy)]
pub struct LineWritten {
    pub answer: u32,
    pub rounds: u32,
    pub stores: u32,
    pub outcome: u32,
    pub placed: u32,
    pub waiting: u32,
}

// What the mapper's write with a line told, its outcome as a number, and how many offers of the line that is
// left wait: of the line as it was where the write was refused.
pub fn line_written_as(line: Line, told: Result<mapper::LineWritten, Refusal>) -> LineWritten
    ensures { result ≡ line_written_said (told_by_line_write line told) }
{
    match told {
        Ok(made) => LineWritten {
            answer: 0,
            rounds: made.written.rounds,
            stores: made.written.stores,
            outcome: outcome_number(made.written.outcome) as u32,
            placed: made.placed,
            waiting: held(made.line) as u32,
        },
        Err(refusal) => LineWritten {
            answer: refusal_number(refusal) as u32,
            rounds: 0,
            stores: 0,
            outcome: outcome_number(Outcome::NotTried) as u32,
            placed: 0,
            waiting: held(line) as u32,
        },
    }
}
