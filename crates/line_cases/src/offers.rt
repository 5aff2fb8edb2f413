// The line of waiting offers of a row: made of a number, printed, and held to another one.
ghost use Rattle.std.specs.Prelude.{◌≡◌};
ghost use Rattle.line.specs.Offers.{line_of};
ghost use Rattle.line_cases.specs.Offers.{offer_said, line_said, same_line};

use figure_lines::lines::print_named;
use figure_lines::output::{Output, put_bytes};
use layout::numbers::HiddenNumber;
use line::offers::{Line, Offer, held, no_line, offer_of, push_offer, waiting_offers};

// The offer at an index of a line that is said in hex digits: number and place of the first four, and past
// them number i at place 0.
fn offer_said(said: u64, i: u32) -> Offer
    ensures { result ≡ offer_said said i }
{
    if i < 4 {
        let digits = said >> (24 - 8 * i);
        return Offer {
            number: HiddenNumber((digits / 16 % 16) as u32),
            place: (digits % 16) as u32,
        };
    }
    Offer {
        number: HiddenNumber(i),
        place: 0,
    }
}

// The line that is said in hex digits: how many wait, and then number and place of the first four.
pub fn line_by(said: u64) -> Line
    ensures { result ≡ line_said said }
{
    let mut line = no_line();
    for i in 0..(said >> 32) as u32 {
        line = push_offer(line, offer_said(said, i));
    }
    line
}

// Prints an offer as its number and its place.
pub fn print_offer(output: &mut Output, offer: Offer) {
    print_named(output, b" (", u64::from(offer.number.0));
    print_named(output, b",", u64::from(offer.place));
    put_bytes(output, b")");
}

// Prints how many offers wait after a text, and each with its place.
pub fn print_line(output: &mut Output, text: &[u8], line: Line) {
    print_named(output, text, held(line) as u64);
    for offer in waiting_offers(&line) {
        print_offer(output, *offer);
    }
}

// Whether the same offers wait, in the same turn.
fn is_line(said: Line, got: Line) -> bool
    ensures { result ≡ same_line (line_of said) (line_of got) }
{
    let most = held(said);
    if held(got) != most {
        return false;
    }
    let mut same = true;
    for i in 0..most {
        same &= offer_of(said, i) == offer_of(got, i);
    }
    same
}

// Ends a line of figures with a text, the line that is said and the one that there is; answers whether they
// agree.
pub fn print_lines(output: &mut Output, text: &[u8], said: Line, got: Line) -> bool
    ensures { result ≡ same_line (line_of said) (line_of got) }
{
    print_line(output, text, said);
    print_line(output, b" got ", got);
    put_bytes(output, b"\n");
    is_line(said, got)
}

// The same of the line that a call leaves.
pub fn print_left(output: &mut Output, said: Line, got: Line) -> bool
    ensures { result ≡ same_line (line_of said) (line_of got) }
{
    print_lines(output, b"  line expected ", said, got)
}
