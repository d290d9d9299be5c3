// What an operand begins with.
ghost use Rattle.std.specs.Prelude.{◌≡◌};
ghost use Rattle.vtl_grammar.specs.Expressions.{lead_of as lead_of_spec};
ghost use Rattle.vtl_words.specs.Fronts.{lead_view};

use crate::bytes::is_digit;

/// What an operand begins with, by its first byte.
#[derive(Clone, Copy, Debug, PartialEq, Eq)]
pub enum Lead {
    /// `!`.
    Exclamation,
    /// `n`, as in `not`.
    Not,
    /// `$`.
    Dollar,
    /// `-`.
    Minus,
    Digit,
    /// `'`.
    Quote,
    /// `"`.
    DoubleQuote,
    /// `t` or `f`, as in `true` and `false`.
    Boolean,
    /// `(`.
    Round,
    /// `[`.
    Square,
    /// `{`.
    Brace,
    /// No operand begins with it.
    Nothing,
}

/// What an operand with this first byte is.
pub fn lead_of(b: u8) -> Lead
    ensures { lead_view result ≡ lead_of_spec b }
{
    if b == b'!' {
        Lead::Exclamation
    } else if b == b'n' {
        Lead::Not
    } else if b == b'$' {
        Lead::Dollar
    } else if b == b'-' {
        Lead::Minus
    } else if is_digit(b) {
        Lead::Digit
    } else if b == b'\'' {
        Lead::Quote
    } else if b == b'"' {
        Lead::DoubleQuote
    } else if b == b't' || b == b'f' {
        Lead::Boolean
    } else if b == b'(' {
        Lead::Round
    } else if b == b'[' {
        Lead::Square
    } else if b == b'{' {
        Lead::Brace
    } else {
        Lead::Nothing
    }
}
