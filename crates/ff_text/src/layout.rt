// The lines that a text has.
ghost use Rattle.std.specs.Prelude.{◌≡◌};
ghost use Rattle.ff_text.specs.Grammar.{lines_of};
ghost use Rattle.ff_text.specs.Reading.{start};

use crate::reader::{Part, State};

/// What a text is read for.
#[derive(Clone, Copy, PartialEq, Eq, Debug)]
pub enum Mode {
    /// Isomorphisms: two equations.
    Iso,
    /// Automorphisms: one equation.
    Aut,
    /// A test of two pairs: two equations and four elements.
    Check,
    /// Maximal orders: one equation.
    Order,
}

/// What stands after the letter of a line.
#[derive(Clone, Copy)]
pub enum Content {
    Equation,
    Element,
}

impl Content {
    /// The state of the reader after the letter.
    pub fn start(self) -> State
        ensures { result ≡ start self }
    {
        match self {
            Content::Equation => State::PolynomialStart(Part::Whole),
            Content::Element => State::ElementStart,
        }
    }
}

/// A line of a text after the line of p, by its letter.
#[derive(Clone, Copy)]
pub struct Line {
    pub letter: u8,
    pub content: Content,
}

const FIRST: Line = Line {
    letter: b'f',
    content: Content::Equation,
};

const SECOND: Line = Line {
    letter: b'g',
    content: Content::Equation,
};

static ONE_EQUATION: [Line; 1] = [FIRST];

static TWO_EQUATIONS: [Line; 2] = [FIRST, SECOND];

static TWO_PAIRS: [Line; 6] = [
    FIRST,
    SECOND,
    Line {
        letter: b'X',
        content: Content::Element,
    },
    Line {
        letter: b'Y',
        content: Content::Element,
    },
    Line {
        letter: b'U',
        content: Content::Element,
    },
    Line {
        letter: b'V',
        content: Content::Element,
    },
];

/// The lines of a text after the line of p, in their order.
pub fn lines_of(mode: Mode) -> &'static [Line]
    ensures { result.now ≡ lines_of mode }
{
    match mode {
        Mode::Iso => &TWO_EQUATIONS,
        Mode::Aut | Mode::Order => &ONE_EQUATION,
        Mode::Check => &TWO_PAIRS,
    }
}
