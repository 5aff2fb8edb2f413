// A line of offers lent as a slice (document 02, K3): loaded into a line by value before a call works on it,
// and saved back after it. What lies past the line that is handed over is neither looked at nor changed.
#![tactic(auto)]

ghost use Rattle.std.specs.Prelude.{◌≡◌};
ghost use Rattle.lent_line.specs.Lent.{most_of, loaded_line, saved_offers};

use line::offers::{Line, Offer, no_line, push_offer};

// How many offers of a lent line are handed over or saved: those that wait, as far as they are lent, at most
// 16.
fn most_of(lent: usize, waiting: usize) -> usize
    ensures { result ≡ most_of lent waiting }
{
    waiting.min(lent.min(16))
}

// The line that a lent one hands over.
pub fn load_lent(line: &[Offer], waiting: u32) -> Line
    ensures { result ≡ loaded_line waiting line.now }
{
    let handed = &line[..most_of(line.len(), waiting as usize)];
    let mut loaded = no_line();
    for offer in handed {
        loaded = push_offer(loaded, *offer);
    }
    loaded
}

// Puts the waiting offers of a line into a lent one, from its front; those past them keep their values.
pub fn save_lent(line: &mut [Offer], held: Line)
    ensures { line.new ≡ saved_offers held line.old }
{
    let most = most_of(line.len(), held.waiting);
    line[..most].copy_from_slice(&held.offers[..most]);
}
