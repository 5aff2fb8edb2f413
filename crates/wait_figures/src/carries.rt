// Rows of a line that writes carry along: in which round no more than so many of its offers are left.
ghost use Rattle.std.specs.Prelude.{◌≡◌, ℕ, ◌+◌};
ghost use Rattle.line.specs.Offers.{line_of};
ghost use Rattle.wait_figures.specs.Carries.{carry_of, carry_on, carry_more, carry_until, Few};
ghost use Rattle.wait_figures.specs.Carries.{carry_agrees};

use crate::drives::live_drive;
use answers_c::line_writes::line_written_as;
use figure_lines::lines::{print_count, print_figure, print_named};
use figure_lines::output::Output;
use figure_lines::rows::Row;
use line::offers::{Line, held};
use line_cases::cases::{left_after, write_with};
use line_cases::offers::{line_by, print_line};

// The line, and how many of its offers may be left; the rounds until then, and how many of the writes told
// that one waits.
#[derive(Clone, Copy)]
pub struct CarryRow(pub u64, pub usize, pub u64, pub u32);

// What writes left of a line, their rounds, and how many of them told that one waits.
#[derive(Clone, Copy)]
struct Carried {
    line: Line,
    rounds: u64,
    waits: u32,
}

// ---- writes ----

// Makes one write more, with what is left of the line.
fn carry_more(disk: &mut [u8], carried: Carried) -> Carried
    requires { Few 20 carried }
    ensures made { carry_of disk.new result ≡ carry_more (carry_of disk.old carried) }
    ensures few { (times : ℕ) → Few times carried → Few (times + 1) result }
{
    let line = carried.line;
    let made = write_with(disk, 0, line, &mut [99u32; 23]);
    let told = line_written_as(line, made);
    let left = left_after(line, made);
    Carried {
        line: left,
        rounds: carried.rounds + u64::from(told.rounds),
        waits: carried.waits + u32::from(told.outcome == 2),
    }
}

// Makes writes until no more than so many offers are left of the line, at most twenty.
fn carry_until(disk: &mut [u8], line: Line, left: usize) -> Carried
    ensures { carry_of disk.new result ≡
        carry_until 20 left (carry_on disk.old (line_of line)) }
{
    let mut carried = Carried {
        line,
        rounds: 0,
        waits: 0,
    };
    for _i in 0..20u32 {
        if held(carried.line) <= left {
            return carried;
        }
        carried = carry_more(disk, carried);
    }
    carried
}

// ---- rows ----

impl Row for CarryRow {
    ghost agrees = { carry_agrees };

    fn run(self, output: &mut Output) -> bool {
        let line = line_by(self.0);
        print_line(output, b"live slots 0 to 6, line ", line);
        print_named(output, b", left ", self.1 as u64);
        let mut disk = live_drive(None);
        let carried = carry_until(&mut disk, line, self.1);
        let ran = print_figure(output, b": rounds", self.2, carried.rounds);
        let told = print_count(output, b"  waiting told", self.3, carried.waits);
        ran & told
    }
}
