// Rows of an offer that is made with each write: what becomes of it in a write after so many.
ghost use Rattle.std.specs.Prelude.{◌≡◌};
ghost use Rattle.wait_figures.specs.Offers.{offer_told, offer_written, offers_written, offer_agrees};

use crate::drives::live_drive;
use answers_c::writes::Written;
use figure_lines::lines::{print_count, print_named};
use figure_lines::output::{Output, put_bytes};
use figure_lines::rows::Row;
use layout::numbers::{HiddenNumber, PublicNumber};
use mapper::{HiddenOffer, write_block};

// The hidden number, and how many writes it is offered before; the outcome's number.
#[derive(Clone, Copy)]
pub struct OfferRow(pub u32, pub u32, pub u32);

// Writes bytes 7 to number 0 with an offer of bytes 9, the random bytes being 165; answers the outcome's
// number.
fn write_offer(disk: &mut [u8], number: u32) -> u32
    ensures told { result ≡ offer_told number disk.old }
    ensures stored { disk.new ≡ offer_written number disk.old }
{
    let offer = HiddenOffer {
        number: HiddenNumber(number),
        content: &[9u8; 32],
    };
    let written = write_block(
        disk,
        PublicNumber(0),
        &[7u8; 32],
        Some(offer),
        &[165u8; 256],
        &mut [99u32; 23],
    );
    let told = Written::from(written);
    told.outcome
}

// Makes so many such writes.
fn write_offers(disk: &mut [u8], number: u32, times: u32)
    ensures { disk.new ≡ offers_written times number disk.old }
{
    for _i in 0..times {
        write_offer(disk, number);
    }
}

fn print_offered(output: &mut Output, number: u32, times: u32) {
    print_named(output, b"live slots 0 to 6, offer ", u64::from(number));
    print_named(output, b" after ", u64::from(times));
    put_bytes(output, b" writes with it: ");
}

impl Row for OfferRow {
    ghost agrees = { offer_agrees };

    fn run(self, output: &mut Output) -> bool {
        print_offered(output, self.0, self.1);
        let mut disk = live_drive(None);
        write_offers(&mut disk, self.0, self.1);
        let outcome = write_offer(&mut disk, self.0);
        print_count(output, b"outcome", self.2, outcome)
    }
}
