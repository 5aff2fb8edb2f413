// The input byte by byte, so that it can be read in pieces of any size: the line of names is passed over, and
// each line of values is held in a lent buffer until it has ended.
ghost use Rattle.std.specs.Prelude.{◌≡◌, length, take};
ghost use Rattle.script.specs.Lines.{line_in, meaning_of};
ghost use Rattle.script.specs.Feeding.{step, step_in, finish, line_room, cut, reading_in};

use crate::lines::{Line, read_line};

// Where the bytes so far end: in no line of values, so in the line of names or past the end of the input; or
// in a line of values or just after it, with so many of its bytes in the buffer.
#[derive(Clone, Copy)]
pub enum Feed {
    NoLine,
    Inside(usize),
    Ended(usize),
}

// Where one more byte of a line leads.
fn feed_line(buffer: &mut [u8], held: usize, byte: u8) -> Feed
    requires { length buffer.old ≡ line_room }
    ensures { reading_in result buffer.new ≡ cut (step_in (take held buffer.old) byte) }
{
    if byte == 10 {
        return Feed::Ended(held);
    }
    if held < 20 {
        buffer[held] = byte;
        return Feed::Inside(held + 1);
    }
    Feed::Inside(20)
}

// Where one more byte of input leads.
pub fn feed_byte(state: Feed, buffer: &mut [u8], byte: u8) -> Feed
    requires { length buffer.old ≡ line_room }
    ensures { reading_in result buffer.new ≡ cut (step (reading_in state buffer.old) byte) }
{
    match state {
        Feed::NoLine => {
            if byte == 10 {
                Feed::Inside(0)
            } else {
                Feed::NoLine
            }
        }
        Feed::Inside(held) => feed_line(buffer, held, byte),
        Feed::Ended(_) => feed_line(buffer, 0, byte),
    }
}

// Where the end of the input leads: to no line more, or to a last line that ends there.
pub fn feed_end(state: Feed, buffer: &[u8]) -> Feed
    requires { length buffer.now ≡ line_room }
    ensures { reading_in result buffer.now ≡ finish (reading_in state buffer.now) }
{
    match state {
        Feed::NoLine => Feed::NoLine,
        Feed::Inside(held) => {
            if held == 0 {
                Feed::NoLine
            } else {
                Feed::Ended(held)
            }
        }
        Feed::Ended(_) => Feed::NoLine,
    }
}

// What the line that is held says, if it is of a good form.
pub fn read_held(buffer: &[u8], held: usize) -> Option<Line>
    ensures { meaning_of result ≡ line_in (take held buffer.now) }
{
    if held < buffer.len() {
        return read_line(&buffer[..held]);
    }
    read_line(buffer)
}
