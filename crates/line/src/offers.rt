// An offer, and a line of at most 16.
ghost use Rattle.std.specs.Prelude.{◌≡◌, length};
ghost use Rattle.line.specs.Offers.{no_line, pushed, offer_in, offers_of, line_of};

use layout::numbers::HiddenNumber;

// A hidden number and the place of its block among the lent blocks, counted in blocks.
#[repr(C)]
#[derive(Clone, Copy, PartialEq, Eq)]
pub struct Offer {
    pub number: HiddenNumber,
    pub place: u32,
}

// The first so many of these offers wait.
#[derive(Clone, Copy)]
pub struct Line {
    pub offers: [Offer; 16],
    pub waiting: usize,
}

// A line in which nothing waits.
pub fn no_line() -> Line
    ensures { result ≡ no_line }
{
    let none = Offer {
        number: HiddenNumber(0),
        place: 0,
    };
    Line {
        offers: [none; 16],
        waiting: 0,
    }
}

// Adds an offer at the end of a line; a full line stays as it is.
pub fn add_offer(line: &mut Line, offer: Offer)
    ensures { line.new ≡ pushed line.old offer }
{
    if line.waiting < 16 {
        line.offers[line.waiting] = offer;
        line.waiting += 1;
    }
}

// A line with one offer more at its end; a full line as it is.
pub fn push_offer(mut line: Line, offer: Offer) -> Line
    ensures { result ≡ pushed line offer }
{
    add_offer(&mut line, offer);
    line
}

// The offer at an index of a line; number 0 and place 0 past its 16.
pub fn offer_of(line: Line, index: usize) -> Offer
    ensures { result ≡ offer_in line index }
{
    let none = Offer {
        number: HiddenNumber(0),
        place: 0,
    };
    line.offers.get(index).copied().unwrap_or(none)
}

// How many offers of a line wait, at most 16.
pub fn held(line: Line) -> usize
    ensures { result ≡ length (line_of line) }
{
    line.waiting.min(16)
}

// The offers of a line that wait.
pub fn waiting_offers<'a>(line: &'a Line) -> &'a [Offer]
    ensures { offers_of result.now ≡ line_of line.now }
{
    &line.offers[..line.waiting.min(16)]
}
