// Numbers that stand alone.
ghost use Rattle.std.specs.Prelude.{[], ℕ, IfSome, IfNone};
ghost use Rattle.ff_text.specs.Grammar.{Number};
ghost use Rattle.ff_text.specs.Symbols.{symbols};

use crate::reader::MAX_DIGITS;
use crate::symbol::digit;

/// The number that a text is. None comes exactly where the text is not one to `MAX_DIGITS` decimal
/// digits.
pub fn read_number(text: &[u8]) -> Option<u32>
    ensures some { IfSome result (λ n. Number (symbols text.now) n []) }
    ensures none { IfNone result ((n : ℕ) → ¬ Number (symbols text.now) n []) }
{
    if text.is_empty() {
        return None;
    }
    if text.len() > MAX_DIGITS as usize {
        return None;
    }
    let mut number = 0;
    for byte in text {
        match digit(*byte) {
            Some(digit) => number = 10 * number + digit,
            None => return None,
        }
    }
    Some(number)
}
