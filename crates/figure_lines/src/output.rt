// Standard output, and whether all that was printed has reached it. A line that cannot be printed holds up no
// figure: the rows are run and counted all the same, and `finish` tells of it.
ghost use Rattle.std.specs.Prelude.{◌≡◌, true, false, is_ok};

use std::io;
use std::io::{Error, Print, Stdout};

pub struct Output {
    stdout: Stdout,
    pub is_whole: bool,
}

// An output that nothing is printed on yet.
pub fn output_on(stdout: Stdout) -> Output
    ensures { result.is_whole ≡ true }
{
    Output {
        stdout,
        is_whole: true,
    }
}

// Prints bytes, where all before them were printed.
pub fn put_bytes(output: &mut Output, bytes: &[u8])
    ensures { output.old.is_whole ≡ false → output.new.is_whole ≡ false }
{
    if output.is_whole {
        output.is_whole = output.stdout.write_all(bytes).is_ok();
    }
}

// Prints a number in decimal, where all before it was printed.
pub fn put_decimal(output: &mut Output, number: u64)
    ensures { output.old.is_whole ≡ false → output.new.is_whole ≡ false }
{
    if output.is_whole {
        output.is_whole = output.stdout.print(number).is_ok();
    }
}

// Answers an error, if anything was not printed.
pub fn finish(output: Output) -> io::Result<()>
    ensures { is_ok result ≡ output.is_whole }
{
    let Output {
        stdout: _,
        is_whole,
    } = output;
    if is_whole {
        return Ok(());
    }
    Err(Error::other("standard output takes no more"))
}
