// What a call leaves in the line that it was handed: the line that is left, saved in the front of it.
ghost use Rattle.std.specs.Prelude.{◌≡◌};
ghost use Rattle.line.specs.Offers.{line_of};
ghost use Rattle.lent_line.specs.Lent.{saved_offers};
ghost use Rattle.line_cases.specs.Offers.{same_line};
ghost use Rattle.line_cases.specs.Lents.{lent_after, LentAfter};

use crate::offers::print_lines;
use figure_lines::output::Output;
use lent_line::save_lent;
use line::offers::{Line, Offer, held};

// Sixteen offers once they were lent for the waiting ones of a line to be saved in them.
fn save_in(lent: [Offer; 16], left: Line) -> [Offer; 16]
    ensures { result ≡ saved_offers left lent }
{
    let mut offers = lent;
    save_lent(&mut offers, left);
    offers
}

// The line that was handed over, with as many offers as then, once the line that is left is saved in it.
fn lent_after(lent: Line, left: Line) -> Line
    ensures { LentAfter lent left result }
{
    let handed = lent.offers;
    let offers = save_in(handed, left);
    Line {
        offers,
        waiting: held(lent),
    }
}

// Ends a line of figures with what is said to lie in the line that was handed over, and with what lies there;
// answers whether they agree.
pub fn print_lent(output: &mut Output, said: Line, lent: Line, left: Line) -> bool
    ensures { result ≡ same_line (line_of said) (lent_after (line_of lent) (line_of left)) }
{
    print_lines(output, b"  lent expected ", said, lent_after(lent, left))
}
