// A line of input: public number, one space, and offered number or `-`, each number 1 to 9 digits.
ghost use Rattle.std.specs.Prelude.{◌≡◌, length, MatchOption};
ghost use Rattle.script.specs.Lines.{is_dash, NoSpace, FirstSpace, field_in, field_of, line_from, line_in};
ghost use Rattle.script.specs.Lines.{meaning_of};

use layout::numbers::{HiddenNumber, PublicNumber};

// What the bytes before or after the space say: a number of 1 to 9 digits, `-`, or anything else.
#[derive(Clone, Copy)]
pub enum Field {
    Number(u32),
    Dash,
    Other,
}

// What a line of a good form says: a public number, and an offered number if there is one.
#[derive(Clone, Copy)]
pub struct Line {
    pub number: PublicNumber,
    pub offer: Option<HiddenNumber>,
}

// The place of the first space, if there is any.
fn space_in(bytes: &[u8]) -> Option<usize>
    ensures { MatchOption result (NoSpace bytes.now (length bytes.now)) (λ at. FirstSpace bytes.now at) }
{
    bytes.iter().position(|byte| *byte == 32)
}

// Whether the bytes are `-` alone.
fn is_dash(bytes: &[u8]) -> bool
    ensures { result ≡ is_dash bytes.now }
{
    bytes == b"-".as_slice()
}

// Digits that a number has at most.
const MOST_DIGITS: usize = 9;

// What a field says.
fn field_in(bytes: &[u8]) -> Field
    ensures { field_of result ≡ field_in bytes.now }
{
    if is_dash(bytes) {
        return Field::Dash;
    }
    let len = bytes.len();
    if len == 0 || MOST_DIGITS < len {
        return Field::Other;
    }
    let mut value: u32 = 0;
    for byte in bytes {
        if !byte.is_ascii_digit() {
            return Field::Other;
        }
        value = value * 10 + (*byte - 48) as u32;
    }
    Field::Number(value)
}

// What two fields make of a line, if it is of a good form.
fn line_from(first: Field, second: Field) -> Option<Line>
    ensures { meaning_of result ≡ line_from (field_of first) (field_of second) }
{
    match (first, second) {
        (Field::Number(number), Field::Number(offer)) => Some(Line {
            number: PublicNumber(number),
            offer: Some(HiddenNumber(offer)),
        }),
        (Field::Number(number), Field::Dash) => Some(Line {
            number: PublicNumber(number),
            offer: None,
        }),
        _ => None,
    }
}

// What a line says, given without its newline and of any length, if it is of a good form.
pub fn read_line(bytes: &[u8]) -> Option<Line>
    ensures { meaning_of result ≡ line_in bytes.now }
{
    let space = space_in(bytes)?;
    let after = space + 1;
    let first = field_in(&bytes[..space]);
    let second = field_in(&bytes[after..]);
    line_from(first, second)
}
