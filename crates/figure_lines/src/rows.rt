// The rows of a table: each is run, and those that agree are counted.
ghost use Rattle.std.specs.Prelude.{◌≡◌, ◌^◌, ◌<◌, Bool, length, count_by};

use crate::output::Output;

// A row of a table: what is done, and what the document says of it.
pub trait Row {
    // whether the document says what the model says
    ghost agrees: { Self → Bool };

    // Prints a row; answers whether it agrees.
    fn run(self, output: &mut Output) -> bool
        ensures { result ≡ agrees self };
}

// Prints every row; answers how many agree.
pub fn run_rows<R: Row + Copy>(output: &mut Output, rows: &[R]) -> u32
    requires { length rows.now < 2 ^ 32 }
    ensures { result ≡ count_by R.agrees rows.now }
{
    let mut agreed: u32 = 0;
    for row in rows {
        agreed += u32::from(row.run(output));
    }
    agreed
}
