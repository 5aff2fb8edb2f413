// What a recovery answers, and what the disk that it leaves shows: of each volume the first byte of a number,
// and the first two bytes of the bitmap.
ghost use Rattle.std.specs.Prelude.{◌≡◌, eqb};
ghost use Rattle.model.specs.Refusals.{public_read_refusal};
ghost use Rattle.model.specs.Promises.Figures.{filled};
ghost use Rattle.recovery_model.specs.Recovery.{recovered, recovery_refusal};
ghost use Rattle.recovery_figures.specs.Tells.{public_first, hidden_first, bits_told};

use figure_lines::lines::{byte_or, print_count};
use figure_lines::output::Output;
use layout::numbers::{HiddenNumber, PublicNumber};
use layout::refusals::answer_number;
use mapper::{check_public, hidden_read, public_read, recover};

// Recovers a disk, and prints the answer; answers whether it agrees.
pub fn tell_recovery(output: &mut Output, disk: &mut [u8], answer: u32) -> bool
    ensures told { result ≡ eqb answer (recovery_refusal disk.old) }
    ensures stored { disk.new ≡ recovered disk.old }
{
    let got = answer_number(recover(disk));
    print_count(output, b"  recovery", answer, u32::from(got))
}

// Prints what a public read of number 0 is refused for; answers whether it agrees.
pub fn tell_fault(output: &mut Output, disk: &[u8], answer: u32) -> bool
    ensures { result ≡ eqb answer (public_read_refusal disk.now 0 (filled 0)) }
{
    let got = answer_number(check_public(disk, PublicNumber(0), &[0u8; 32]));
    print_count(output, b"  public read before it", answer, u32::from(got))
}

// Prints the first byte that a public read of number 0 shows; answers whether it agrees.
pub fn tell_public(output: &mut Output, disk: &[u8], byte: u32) -> bool
    ensures { result ≡ eqb byte (public_first 0 disk.now) }
{
    let blank = [0u8; 32];
    let got = byte_or(public_read(disk, PublicNumber(0), &blank), 0);
    print_count(output, b"  public 0 shows", byte, got)
}

// The first byte that a hidden read shows.
pub fn hidden_first(disk: &[u8], number: u32) -> u32
    ensures { result ≡ hidden_first number disk.now }
{
    let blank = [0u8; 32];
    byte_or(hidden_read(disk, HiddenNumber(number), &blank), 0)
}

// Prints the first two bytes of the bitmap; answers whether they agree.
pub fn tell_bits(output: &mut Output, disk: &[u8], first: u32, second: u32) -> bool
    ensures { result ≡ bits_told first second disk.now }
{
    let front = print_count(output, b"  bitmap byte 0", first, byte_or(disk, 64));
    let next = print_count(output, b"  bitmap byte 1", second, byte_or(disk, 65));
    front & next
}
