// Reading a text symbol by symbol.
ghost use Rattle.std.specs.Prelude.{◌≡◌, ◌+◌, ◌*◌, ◌%◌, ◌<◌, ◌≤◌, ◌^◌, map, Some, IfOk, IfErr};
ghost use Rattle.std.specs.Prelude.{MatchResult};
ghost use Rattle.ff_text.specs.declared.reader.Stop.TheVariants.{NoMemory};
ghost use Rattle.ff_text.specs.declared.reader.Part.TheVariants.{Numerator, Denominator};
ghost use Rattle.ff_text.specs.Symbols.{IsDigitShort};
ghost use Rattle.ff_text.specs.Reading.{Progress, Follows, Ends, finish, initial, go, IsShort};
ghost use Rattle.ff_text.specs.Reading.{IsShortAt, HasRoom, number_bound, push_digit, first_digit};
ghost use Rattle.ff_text.specs.Reading.{step, is_done};
ghost use Rattle.ff_text.specs.Reading.{quotient, unit, modulus, reduced, factor_of, signed};
ghost use Rattle.ff_text.specs.Reading.{all_terms, next_term, clear, apply, end_number, end_line};
ghost use Rattle.ff_text.specs.Reading.{close, allows, open_line, step_line_end, step_text_start};
ghost use Rattle.ff_text.specs.Reading.{step_between, step_number_start, step_in_number};
ghost use Rattle.ff_text.specs.Reading.{step_factor_start, step_polynomial_start};
ghost use Rattle.ff_text.specs.Reading.{step_element_start, step_after_factor, step_in_digits};
ghost use Rattle.ff_text.specs.Reading.{step_after_variable, step_exponent};
ghost use Rattle.ff_text.specs.Reading.{step_after_numerator, step_after_slash};

use crate::layout::{Line, Mode, lines_of};
use crate::symbol::{Sign, Symbol, Variable};
use std::alloc::{AllocError, AllocFailed, Global};
use std::marker::Model;
use std::mem;

/// The greatest number of digits of a number in the input.
pub const MAX_DIGITS: u32 = 9;

/// A number times powers of x and y.
#[derive(Clone, Copy)]
pub struct Monomial {
    pub coefficient: u32,
    pub x: u64,
    pub y: u64,
}

/// Polynomials of a line: a numerator, and a denominator where there is one.
#[derive(Drop)]
pub struct Fraction {
    pub numerator: Vec<Monomial>,
    pub denominator: Option<Vec<Monomial>>,
}

/// The part of a line that a polynomial is.
#[derive(Clone, Copy)]
pub enum Part {
    Whole,
    Numerator,
    Denominator,
}

/// What a number in a polynomial is.
#[derive(Clone, Copy)]
pub enum Role {
    Coefficient,
    Exponent(Variable),
}

/// The digits of a number so far: their value and how many there are.
#[derive(Clone, Copy)]
pub struct Numeral {
    pub value: u32,
    pub digits: u32,
}

/// The state of the reader: what was read last, and what may follow.
#[derive(Clone, Copy)]
pub enum State {
    /// Before the letter p.
    Start,
    /// Before the letter of a later line, or after the last line.
    Between,
    NumberStart,
    InNumber(Numeral),
    /// After the last token of a line.
    LineEnd,
    ElementStart,
    PolynomialStart(Part),
    FactorStart(Part),
    InDigits(Part, Role, Numeral),
    AfterVariable(Part, Variable),
    ExponentStart(Part, Variable),
    AfterFactor(Part),
    AfterNumerator,
    AfterSlash,
}

/// Why reading stops.
#[derive(Debug, Drop)]
pub enum Stop {
    /// No text goes on so.
    Unexpected,
    /// Out of memory.
    NoMemory,
}

impl From<AllocError> for Stop {
    ghost use Rattle.ff_text.specs.declared.reader.Stop.TheVariants.{NoMemory};

    ghost from_gives = { λ _ e. e ≡ NoMemory };

    fn from(_fault: AllocError) -> Stop {
        Stop::NoMemory
    }
}

impl<T: Drop> From<AllocFailed<T>> for Stop {
    ghost use Rattle.ff_text.specs.declared.reader.Stop.TheVariants.{NoMemory};

    ghost from_gives = { λ _ e. e ≡ NoMemory };

    fn from(_fault: AllocFailed<T>) -> Stop {
        Stop::NoMemory
    }
}

impl Numeral {
    /// The number of one digit.
    fn first(digit: u32) -> Numeral
        ensures { result ≡ first_digit digit }
    {
        Numeral {
            value: digit,
            digits: 1,
        }
    }

    /// The number with one digit more, where it has at most `MAX_DIGITS` then.
    fn longer(self, digit: u32) -> Option<Numeral>
        requires digit { digit < 10 }
        requires short { IsShort self }
        ensures { result ≡ push_digit self digit }
    {
        if self.digits < MAX_DIGITS {
            Some(Numeral {
                value: 10 * self.value + digit,
                digits: self.digits + 1,
            })
        } else {
            None
        }
    }
}

impl Part {
    /// Whether the letter may stand in this part.
    fn allows(self, variable: Variable) -> bool
        ensures { result ≡ allows self variable }
    {
        !matches!((self, variable), (Part::Denominator, Variable::Y))
    }
}

/// What has been read of a text, and the state of the reader.
#[derive(Drop)]
pub struct Reader {
    lines: &'static [Line],
    state: State,
    number: u32,
    sign: Sign,
    product: Monomial,
    terms: Vec<Monomial>,
    numerator: Vec<Monomial>,
    entries: Vec<Fraction>,
}

impl Model for Reader {
    ghost use Rattle.std.specs.Prelude.{map};
    ghost use Rattle.ff_text.specs.Reading.{Progress, quotient};

    ghost Value = { Progress };

    ghost view = { λ r. record {
      lines = r.lines.now;
      state = r.state;
      number = r.number;
      sign = r.sign;
      product = r.product;
      terms = r.terms.items;
      numerator = r.numerator.items;
      entries = map quotient r.entries.items;
    } };
}

impl Reader {
    /// Before a text.
    pub fn new(alloc: Global, mode: Mode) -> Reader
        ensures { result ≡ initial mode }
    {
        Reader {
            lines: lines_of(mode),
            state: State::Start,
            number: 0,
            sign: Sign::Plus,
            product: Monomial {
                coefficient: 0,
                x: 0,
                y: 0,
            },
            terms: Vec::new(alloc),
            numerator: Vec::new(alloc),
            entries: Vec::new(alloc),
        }
    }

    /// Whether no line is left.
    pub fn is_done(&self) -> bool
        ensures { result ≡ is_done self.now }
    {
        matches!(self.state, State::Between) && self.lines.is_empty()
    }

    /// The number of the first line, and the lines after it.
    pub fn into_parts(self) -> (u32, Vec<Fraction>)
        ensures number { result.0 ≡ self.number }
        ensures entries { map quotient result.1.items ≡ self.entries }
    {
        (self.number, self.entries)
    }

    /// Goes on in this state.
    fn go(&mut self, state: State) -> Result<(), Stop>
        ensures { Follows result (go state self.old) self.new }
    {
        self.state = state;
        Ok(())
    }

    /// After the last token of a line.
    fn step_line_end(&mut self, symbol: Symbol) -> Result<(), Stop>
        ensures { Follows result (step_line_end self.old symbol) self.new }
    {
        match symbol {
            Symbol::Blank => self.go(State::LineEnd),
            Symbol::LineFeed => self.go(State::Between),
            _ => Err(Stop::Unexpected),
        }
    }

    /// Begins the line of the letter, where it is the next one.
    fn open_line(&mut self, letter: u8) -> Result<(), Stop>
        ensures { Follows result (open_line self.old.lines letter self.old) self.new }
    {
        match self.lines {
            [line, rest @ ..] if line.letter == letter => {
                self.state = line.content.start();
                self.lines = rest;
                Ok(())
            }
            _ => Err(Stop::Unexpected),
        }
    }

    /// Before the letter of a line after the first.
    fn step_between(&mut self, symbol: Symbol) -> Result<(), Stop>
        ensures { Follows result (step_between self.old symbol) self.new }
    {
        match symbol {
            Symbol::Blank | Symbol::LineFeed => self.go(State::Between),
            Symbol::Letter(letter) => self.open_line(letter),
            _ => Err(Stop::Unexpected),
        }
    }

    /// Before the letter p.
    fn step_text_start(&mut self, symbol: Symbol) -> Result<(), Stop>
        ensures { Follows result (step_text_start self.old symbol) self.new }
    {
        match symbol {
            Symbol::Blank | Symbol::LineFeed => self.go(State::Start),
            Symbol::Letter(b'p') => self.go(State::NumberStart),
            _ => Err(Stop::Unexpected),
        }
    }

    /// Before the number of the first line.
    fn step_number_start(&mut self, symbol: Symbol) -> Result<(), Stop>
        ensures { Follows result (step_number_start self.old symbol) self.new }
    {
        match symbol {
            Symbol::Blank => self.go(State::NumberStart),
            Symbol::Digit(digit) => self.go(State::InNumber(Numeral::first(digit))),
            _ => Err(Stop::Unexpected),
        }
    }

    /// In the number of the first line.
    fn step_in_number(&mut self, n: Numeral, symbol: Symbol) -> Result<(), Stop>
        requires digit { IsDigitShort symbol }
        requires short { IsShort n }
        ensures { Follows result (step_in_number n self.old symbol) self.new }
    {
        match symbol {
            Symbol::Digit(digit) => match n.longer(digit) {
                Some(longer) => self.go(State::InNumber(longer)),
                None => Err(Stop::Unexpected),
            },
            _ => {
                self.number = n.value;
                self.product = self.unit();
                self.step_line_end(symbol)
            }
        }
    }

    /// The modulus of the coefficients.
    fn modulus(&self) -> u32
        ensures value { result ≡ modulus self.now.number }
        ensures positive { 0 < result }
    {
        self.number.max(1)
    }

    /// The product of no factors.
    fn unit(&self) -> Monomial
        ensures { result ≡ unit (modulus self.now.number) }
    {
        Monomial {
            coefficient: 1 % self.modulus(),
            x: 0,
            y: 0,
        }
    }

    /// Before a factor.
    fn step_factor_start(&mut self, part: Part, symbol: Symbol) -> Result<(), Stop>
        ensures { Follows result (step_factor_start part self.old symbol) self.new }
    {
        match symbol {
            Symbol::Blank => self.go(State::FactorStart(part)),
            Symbol::Digit(digit) => {
                self.go(State::InDigits(part, Role::Coefficient, Numeral::first(digit)))
            }
            Symbol::Variable(variable) if part.allows(variable) => {
                self.go(State::AfterVariable(part, variable))
            }
            _ => Err(Stop::Unexpected),
        }
    }

    /// Before a polynomial.
    fn step_polynomial_start(&mut self, part: Part, symbol: Symbol) -> Result<(), Stop>
        ensures { Follows result (step_polynomial_start part self.old symbol) self.new }
    {
        match symbol {
            Symbol::Blank => self.go(State::PolynomialStart(part)),
            Symbol::Sign(sign) => {
                self.sign = sign;
                self.go(State::FactorStart(part))
            }
            _ => self.step_factor_start(part, symbol),
        }
    }

    /// Before an element.
    fn step_element_start(&mut self, symbol: Symbol) -> Result<(), Stop>
        ensures { Follows result (step_element_start self.old symbol) self.new }
    {
        match symbol {
            Symbol::Blank => self.go(State::ElementStart),
            Symbol::Open => self.go(State::PolynomialStart(Part::Numerator)),
            _ => self.step_polynomial_start(Part::Whole, symbol),
        }
    }

    /// Multiplies the term by a number, or by a power of a variable.
    fn apply(&mut self, role: Role, n: u32)
        requires room { HasRoom self.old }
        requires small { n < number_bound }
        ensures { self.new ≡ apply role n self.old }
    {
        let m = self.modulus();
        let product = self.product;
        self.product = match role {
            Role::Coefficient => Monomial {
                coefficient: product_modulo(product.coefficient, n, m),
                x: product.x,
                y: product.y,
            },
            Role::Exponent(variable) => {
                let coefficient = product.coefficient % m;
                match variable {
                    Variable::X => Monomial {
                        coefficient,
                        x: product.x + n as u64,
                        y: product.y,
                    },
                    Variable::Y => Monomial {
                        coefficient,
                        x: product.x,
                        y: product.y + n as u64,
                    },
                }
            }
        };
    }

    /// The term with its sign in its coefficient.
    fn signed(&self) -> Monomial
        ensures { result ≡ signed (modulus self.now.number) self.now.sign self.now.product }
    {
        match self.sign {
            Sign::Plus => self.product,
            Sign::Minus => {
                let m = self.modulus();
                Monomial {
                    coefficient: (m - self.product.coefficient % m) % m,
                    x: self.product.x,
                    y: self.product.y,
                }
            }
        }
    }

    /// Ends the term.
    fn next_term(&mut self) -> Result<(), Stop>
        ensures { Follows result (Some (next_term self.old)) self.new }
    {
        let term = self.signed();
        self.terms.push(term)?;
        self.sign = Sign::Plus;
        self.product = self.unit();
        Ok(())
    }

    /// Ends the polynomial, and takes its terms.
    fn take_terms(&mut self, alloc: Global) -> Result<Vec<Monomial>, Stop>
        ensures terms { IfOk result (λ ts. ts.items ≡ all_terms self.old) }
        ensures state { IfOk result (λ _. self.new ≡ clear self.old) }
        ensures err { IfErr result (λ e. e ≡ NoMemory) }
    {
        self.next_term()?;
        Ok(mem::replace(&mut self.terms, Vec::new(alloc)))
    }

    /// Ends a line that is a polynomial.
    fn end_line(&mut self, alloc: Global) -> Result<(), Stop>
        ensures { Follows result (end_line self.old) self.new }
    {
        let numerator = self.take_terms(alloc)?;
        self.entries.push(Fraction {
            numerator,
            denominator: None,
        })?;
        self.go(State::Between)
    }

    /// Ends a numerator.
    fn end_numerator(&mut self, alloc: Global) -> Result<(), Stop>
        ensures { Follows result (close Numerator self.old) self.new }
    {
        self.numerator = self.take_terms(alloc)?;
        self.go(State::AfterNumerator)
    }

    /// Ends a denominator.
    fn end_denominator(&mut self, alloc: Global) -> Result<(), Stop>
        ensures { Follows result (close Denominator self.old) self.new }
    {
        let denominator = Some(self.take_terms(alloc)?);
        let numerator = mem::replace(&mut self.numerator, Vec::new(alloc));
        self.entries.push(Fraction {
            numerator,
            denominator,
        })?;
        self.go(State::LineEnd)
    }

    /// After a factor.
    fn step_after_factor(&mut self, alloc: Global, part: Part, symbol: Symbol) -> Result<(), Stop>
        ensures { Follows result (step_after_factor part self.old symbol) self.new }
    {
        match (symbol, part) {
            (Symbol::Blank, _) => self.go(State::AfterFactor(part)),
            (Symbol::Times, _) => self.go(State::FactorStart(part)),
            (Symbol::Sign(sign), _) => {
                self.next_term()?;
                self.sign = sign;
                self.go(State::FactorStart(part))
            }
            (Symbol::LineFeed, Part::Whole) => self.end_line(alloc),
            (Symbol::Close, Part::Numerator) => self.end_numerator(alloc),
            (Symbol::Close, Part::Denominator) => self.end_denominator(alloc),
            _ => Err(Stop::Unexpected),
        }
    }

    /// In a number of a polynomial.
    fn step_in_digits(
        &mut self,
        alloc: Global,
        part: Part,
        role: Role,
        n: Numeral,
        symbol: Symbol,
    ) -> Result<(), Stop>
        requires digit { IsDigitShort symbol }
        requires short { IsShort n }
        requires room { HasRoom self.old }
        ensures { Follows result (step_in_digits part role n self.old symbol) self.new }
    {
        match symbol {
            Symbol::Digit(digit) => match n.longer(digit) {
                Some(longer) => self.go(State::InDigits(part, role, longer)),
                None => Err(Stop::Unexpected),
            },
            _ => {
                self.apply(role, n.value);
                self.step_after_factor(alloc, part, symbol)
            }
        }
    }

    /// After a variable.
    fn step_after_variable(
        &mut self,
        alloc: Global,
        part: Part,
        variable: Variable,
        symbol: Symbol,
    ) -> Result<(), Stop>
        requires { HasRoom self.old }
        ensures { Follows result (step_after_variable part variable self.old symbol) self.new }
    {
        match symbol {
            Symbol::Blank => self.go(State::AfterVariable(part, variable)),
            Symbol::Power => self.go(State::ExponentStart(part, variable)),
            _ => {
                self.apply(Role::Exponent(variable), 1);
                self.step_after_factor(alloc, part, symbol)
            }
        }
    }

    /// After a power sign.
    fn step_exponent(&mut self, part: Part, variable: Variable, symbol: Symbol) -> Result<(), Stop>
        ensures { Follows result (step_exponent part variable self.old symbol) self.new }
    {
        match symbol {
            Symbol::Blank => self.go(State::ExponentStart(part, variable)),
            Symbol::Digit(digit) => {
                self.go(State::InDigits(part, Role::Exponent(variable), Numeral::first(digit)))
            }
            _ => Err(Stop::Unexpected),
        }
    }

    /// After a numerator.
    fn step_after_numerator(&mut self, symbol: Symbol) -> Result<(), Stop>
        ensures { Follows result (step_after_numerator self.old symbol) self.new }
    {
        match symbol {
            Symbol::Blank => self.go(State::AfterNumerator),
            Symbol::Slash => self.go(State::AfterSlash),
            _ => Err(Stop::Unexpected),
        }
    }

    /// After the slash of a quotient.
    fn step_after_slash(&mut self, symbol: Symbol) -> Result<(), Stop>
        ensures { Follows result (step_after_slash self.old symbol) self.new }
    {
        match symbol {
            Symbol::Blank => self.go(State::AfterSlash),
            Symbol::Open => self.go(State::PolynomialStart(Part::Denominator)),
            _ => Err(Stop::Unexpected),
        }
    }

    /// Reads one symbol.
    #[tactic(auto, unfolding(crate::specs::Reading::step))]
    pub fn step(&mut self, alloc: Global, symbol: Symbol) -> Result<(), Stop>
        requires digit { IsDigitShort symbol }
        requires short { IsShortAt self.old.state }
        requires room { HasRoom self.old }
        ensures { Follows result (step self.old symbol) self.new }
    {
        match self.state {
            State::Start => self.step_text_start(symbol),
            State::Between => self.step_between(symbol),
            State::NumberStart => self.step_number_start(symbol),
            State::InNumber(n) => self.step_in_number(n, symbol),
            State::LineEnd => self.step_line_end(symbol),
            State::ElementStart => self.step_element_start(symbol),
            State::PolynomialStart(part) => self.step_polynomial_start(part, symbol),
            State::FactorStart(part) => self.step_factor_start(part, symbol),
            State::InDigits(part, role, n) => self.step_in_digits(alloc, part, role, n, symbol),
            State::AfterVariable(part, variable) => {
                self.step_after_variable(alloc, part, variable, symbol)
            }
            State::ExponentStart(part, variable) => self.step_exponent(part, variable, symbol),
            State::AfterFactor(part) => self.step_after_factor(alloc, part, symbol),
            State::AfterNumerator => self.step_after_numerator(symbol),
            State::AfterSlash => self.step_after_slash(symbol),
        }
    }

    /// Ends the text, at which a line feed may be missing.
    pub fn finish(mut self, alloc: Global) -> Result<Reader, Stop>
        requires short { IsShortAt self.state }
        requires room { HasRoom self }
        ensures { Ends result (finish (Some self)) }
    {
        self.step(alloc, Symbol::LineFeed)?;
        if self.is_done() {
            Ok(self)
        } else {
            Err(Stop::Unexpected)
        }
    }
}

/// The product of two numbers modulo a third.
fn product_modulo(a: u32, b: u32, m: u32) -> u32
    requires { 0 < m }
    ensures { result ≡ a * b % m }
{
    (a as u64 * b as u64 % m as u64) as u32
}
