// Text put into a lent buffer from a place on; each function answers the place after it.
ghost use Rattle.std.specs.Prelude.{◌+◌, ◌≤◌, length};
ghost use Rattle.script.specs.Texts.{Put, decimal};

// Puts bytes as they are.
pub fn put_text(out: &mut [u8], at: usize, text: &[u8]) -> usize
    requires { at + length text.now ≤ length out.old }
    ensures { Put text.now out.old at out.new result }
{
    let end = at + text.len();
    out[at..end].copy_from_slice(text);
    end
}

// Puts a number in decimal, without leading zeros.
pub fn put_number(out: &mut [u8], at: usize, value: u64) -> usize
    requires { at + length (decimal value) ≤ length out.old }
    ensures { Put (decimal value) out.old at out.new result }
{
    if value < 10 {
        out[at] = 48 + value as u8;
        return at + 1;
    }
    let last = put_number(out, at, value / 10);
    out[last] = 48 + (value % 10) as u8;
    last + 1
}
