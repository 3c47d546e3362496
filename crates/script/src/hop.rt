// Hops, as words write them.
ghost use Rattle.std.specs.Prelude.{◌≡◌, ◌==◌};
ghost use Rattle.std.specs.List.{position};
ghost use Rattle.script.specs.Hops.{from_digits, hop_of};

use crate::mistake::Mistake;
use crate::number::{number, small_number};
use routes::hop::Hop;

// Where the first dot stands.
fn dot(word: &[u8]) -> Option<usize>
    ensures { result ≡ position (λ b. b == 46) word.now }
{
    word.iter().position(|byte| *byte == b'.')
}

// The hop of a link and a lane, each in digits.
fn from_digits(link: &[u8], lane: &[u8]) -> Result<Hop, Mistake>
    ensures { result ≡ from_digits link.now lane.now }
{
    let link = number(link)?;
    let lane = small_number(lane)?;
    Ok(Hop { link, lane })
}

// Not `TryFrom`, since `Hop` is another crate's type.
/// The hop that a word writes: a link and a lane, with a dot between them.
#[tactic(auto, using(crate::proofs::Dots::cut_at_dot))]
pub(crate) fn hop(word: &[u8]) -> Result<Hop, Mistake>
    ensures { result ≡ hop_of word.now }
{
    let dot = dot(word).ok_or(Mistake::NotAHop)?;
    from_digits(&word[..dot], &word[dot + 1..])
}
