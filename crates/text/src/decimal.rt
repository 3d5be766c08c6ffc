// Decimal numbers, read.
ghost use Rattle.std.specs.Prelude.{◌≡◌, ◌<◌, ◌≤◌, length, MatchOption};
ghost use Rattle.text.specs.Decimal.{decimal_of};

use super::hex::value;

// The number that the digits of word say, if it is at most `most`. Of a word that is not all digits (all_digits) it says nothing of use.
pub fn number_of(word: &[u8], most: u64) -> Option<u64>
    ensures { MatchOption result (most < decimal_of (length word.now) word.now)
        (λ n. (n ≡ decimal_of (length word.now) word.now) × (n ≤ most)) }
{
    let mut said: u64 = 0;
    for &c in word {
        said = said.checked_mul(10)?.checked_add(u64::from(value(c)))?;
        if most < said {
            return None;
        }
    }
    Some(said)
}
