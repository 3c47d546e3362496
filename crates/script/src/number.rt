// Decimal numbers.
ghost use Rattle.std.specs.Prelude.{◌≡◌};
ghost use Rattle.std.specs.Char.{is_ascii_digit};
ghost use Rattle.std.specs.List.{list_all};
ghost use Rattle.script.specs.Numbers.{decimal_of};

use crate::mistake::Mistake;

// Whether every byte is a decimal digit. A function, since the proof does not close with the chain in `decimal`.
fn all_digits(word: &[u8]) -> bool
    ensures { result ≡ list_all is_ascii_digit word.now }
{
    word.iter().all(|byte| byte.is_ascii_digit())
}

/// The number that a word of digits writes, if it is at most `most`.
#[tactic(auto, using(crate::proofs::Decimals::decimals))]
pub(crate) fn decimal(word: &[u8], most: u32) -> Result<u32, Mistake>
    ensures { result ≡ decimal_of most word.now }
{
    if word.is_empty() || !all_digits(word) {
        return Err(Mistake::NotANumber);
    }
    // a loop over the bytes that stops where the number is too large: a `try_fold` would say no more
    let mut value: u64 = 0;
    for byte in word {
        value = value * 10 + u64::from(byte.saturating_sub(b'0'));
        if value > u64::from(most) {
            return Err(Mistake::NumberTooLarge);
        }
    }
    // the cast is proved to lose nothing
    Ok(value as u32)
}

/// The number of 16 bits that a word writes.
pub(crate) fn number(word: &[u8]) -> Result<u16, Mistake>
    ensures { result ≡ decimal_of 65535 word.now }
{
    // the cast is proved to lose nothing
    Ok(decimal(word, 65535)? as u16)
}

/// The number of 8 bits that a word writes.
pub(crate) fn small_number(word: &[u8]) -> Result<u8, Mistake>
    ensures { result ≡ decimal_of 255 word.now }
{
    // the cast is proved to lose nothing
    Ok(decimal(word, 255)? as u8)
}
