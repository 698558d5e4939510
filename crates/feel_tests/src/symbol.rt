//! The symbols among the words of a cell.
ghost use Rattle.std.specs.Prelude.{◌≡◌, find, nat_eq};
ghost use Rattle.std.specs.List.{starts_with};
ghost use Rattle.feel_tests.specs.Words.{symbol_text};
ghost use Rattle.feel_tests.specs.Grammar.{start_in, end_in};
ghost use Rattle.feel_tests.specs.Symbols.{symbols, op_of};

use crate::cell::Op;

/// A symbol of the grammar of cells.
#[derive(Clone, Copy, PartialEq, Eq)]
pub enum Symbol {
    /// `<`
    Less,
    /// `<=`
    AtMost,
    /// `>`
    More,
    /// `>=`
    AtLeast,
    /// `(`
    OpenRound,
    /// `)`
    CloseRound,
    /// `[`
    OpenSquare,
    /// `]`
    CloseSquare,
    /// `..`
    Dots,
    /// `,`
    Comma,
    /// `-`
    Dash,
}

// The bytes of each symbol, in the order of the variants.
static SYMBOL_TEXTS: [&[u8]; 11] = [
    b"<", b"<=", b">", b">=", b"(", b")", b"[", b"]", b"..", b",", b"-",
];

// The symbols of two bytes precede the ones of one byte that they begin with, so that the longest
// symbol is found first.
const SYMBOLS: [Symbol; 11] = [
    Symbol::AtMost,
    Symbol::AtLeast,
    Symbol::Dots,
    Symbol::Less,
    Symbol::More,
    Symbol::OpenRound,
    Symbol::CloseRound,
    Symbol::OpenSquare,
    Symbol::CloseSquare,
    Symbol::Comma,
    Symbol::Dash,
];

impl Symbol {
    /// Returns the longest symbol at the start of the bytes.
    pub fn at_front(bytes: &[u8]) -> Option<Symbol>
        ensures { result
            ≡ find (λ symbol. starts_with nat_eq bytes.now (symbol_text symbol)) symbols }
    {
        for symbol in &SYMBOLS {
            if bytes.starts_with(symbol.text()) {
                return Some(*symbol);
            }
        }
        None
    }

    /// Returns the bytes of the symbol.
    pub fn text(self) -> &'static [u8]
        ensures { result.now ≡ symbol_text self }
    {
        SYMBOL_TEXTS[self as usize]
    }

    /// Returns the comparison with this operator, or `None` if the symbol is not an operator.
    pub fn op(self) -> Option<Op>
        ensures { result ≡ op_of self }
    {
        match self {
            Symbol::Less => Some(Op::Less),
            Symbol::AtMost => Some(Op::AtMost),
            Symbol::More => Some(Op::More),
            Symbol::AtLeast => Some(Op::AtLeast),
            _ => None,
        }
    }

    /// Returns, for a bracket that opens an interval, whether the low end belongs to the interval.
    pub fn start_in(self) -> Option<bool>
        ensures { result ≡ start_in self }
    {
        match self {
            Symbol::OpenSquare => Some(true),
            Symbol::OpenRound => Some(false),
            Symbol::CloseSquare => Some(false),
            _ => None,
        }
    }

    /// Returns, for a bracket that closes an interval, whether the high end belongs to the
    /// interval.
    pub fn end_in(self) -> Option<bool>
        ensures { result ≡ end_in self }
    {
        match self {
            Symbol::CloseSquare => Some(true),
            Symbol::CloseRound | Symbol::OpenSquare => Some(false),
            _ => None,
        }
    }
}
