// Bytes, as words write them in base sixteen.
ghost use Rattle.std.specs.Prelude.{◌≡◌, ◌++◌, Ok, vec_items};
ghost use Rattle.script.specs.Hex.{digit_of, pair_of, bytes_of};
ghost use Rattle.script.specs.Reads.{and_then, Parses};

use crate::mistake::Mistake;

// The value of a digit.
fn digit(byte: u8) -> Result<u8, Mistake>
    ensures { result ≡ digit_of byte }
{
    let digit = char::from(byte).to_digit(16).ok_or(Mistake::NotBytes)?;
    // the cast is proved to lose nothing
    Ok(digit as u8)
}

// The byte of two digits.
fn pair(high: u8, low: u8) -> Result<u8, Mistake>
    ensures { result ≡ pair_of high low }
{
    Ok(16 * digit(high)? + digit(low)?)
}

/// Pushes the bytes that a word writes, two digits for each.
pub(crate) fn push_bytes(bytes: &mut Vec<u8>, word: &[u8]) -> Result<(), Mistake>
    ensures { Parses (λ _. vec_items bytes.new) (Unit {0})
        (and_then (bytes_of word.now) (λ more. Ok (vec_items bytes.old ++ more))) result }
{
    let mut digits = word;
    while let [high, low, rest @ ..] = digits {
        bytes.push(pair(*high, *low)?)?;
        digits = rest;
    }
    if digits.is_empty() {
        Ok(())
    } else {
        Err(Mistake::NotBytes)
    }
}
