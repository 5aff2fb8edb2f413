// What entering a line came to, as C is told.
ghost use Rattle.std.specs.Prelude.{◌≡◌};
ghost use Rattle.answers_c.specs.Enters.{entered_said};

use layout::refusals::{Refusal, refusal_number};
use line::offers::{Line, held};

// 0 or the refusal, and how many offers of the line wait now.
#[repr(C)]
#[derive(Clone, Copy)]
pub struct Entered {
    pub answer: u32,
    pub waiting: u32,
}

// What entering into a line answered, and how many offers of the line that is left wait: of the line as it
// was where entering was refused.
pub fn entered_as(line: Line, entered: Result<Line, Refusal>) -> Entered
    ensures { result ≡ entered_said line entered }
{
    match entered {
        Ok(left) => Entered {
            answer: 0,
            waiting: held(left) as u32,
        },
        Err(refusal) => Entered {
            answer: refusal_number(refusal) as u32,
            waiting: held(line) as u32,
        },
    }
}
