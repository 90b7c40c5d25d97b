// What a byte of the input means.
ghost use Rattle.std.specs.Prelude.{◌≡◌, ◌<◌, IfSome};
ghost use Rattle.ff_text.specs.Symbols.{symbol_of, digit_of, IsDigitShort};

/// A sign before a term.
#[derive(Clone, Copy)]
pub enum Sign {
    Plus,
    Minus,
}

/// A variable of a polynomial.
#[derive(Clone, Copy)]
pub enum Variable {
    X,
    Y,
}

/// What a byte means in the grammar.
#[derive(Clone, Copy)]
pub enum Symbol {
    Blank,
    LineFeed,
    Digit(u32),
    Sign(Sign),
    Times,
    Power,
    Open,
    Close,
    Slash,
    Variable(Variable),
    /// A letter that a line begins with.
    Letter(u8),
    /// A byte that no text holds.
    Other,
}

/// What the byte means.
#[tactic(auto, unfolding(crate::specs::Symbols::symbol_of))]
pub fn meaning(byte: u8) -> Symbol
    ensures symbol { result ≡ symbol_of byte }
    ensures digit { IsDigitShort result }
{
    match byte {
        b' ' | b'\t' | b'\r' => Symbol::Blank,
        b'\n' => Symbol::LineFeed,
        b'0'..=b'9' => Symbol::Digit((byte - b'0') as u32),
        b'+' => Symbol::Sign(Sign::Plus),
        b'-' => Symbol::Sign(Sign::Minus),
        b'*' => Symbol::Times,
        b'^' => Symbol::Power,
        b'(' => Symbol::Open,
        b')' => Symbol::Close,
        b'/' => Symbol::Slash,
        b'x' => Symbol::Variable(Variable::X),
        b'y' => Symbol::Variable(Variable::Y),
        b'p' | b'f' | b'g' | b'X' | b'Y' | b'U' | b'V' => Symbol::Letter(byte),
        _ => Symbol::Other,
    }
}

/// The digit that the byte is.
pub fn digit(byte: u8) -> Option<u32>
    ensures value { result ≡ digit_of (symbol_of byte) }
    ensures small { IfSome result (λ d. d < 10) }
{
    match meaning(byte) {
        Symbol::Digit(digit) => Some(digit),
        _ => None,
    }
}
