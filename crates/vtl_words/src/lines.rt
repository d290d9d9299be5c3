// Lines: a directive that stands alone on its line takes the whole line with it.
ghost use Rattle.std.specs.Prelude.{◌≡◌, ◌<◌, ◌^◌, Some, None, IfSome, MatchOption};
ghost use Rattle.vtl_grammar.specs.Lines.{line_after as line_after_of, cut as cut_of, line_end as line_end_of, lines as lines_of};

use crate::bytes::{blanks, is_blank};

/// The line behind a byte of text. A line is the number of blanks before a place, where nothing else stands before it
/// on its line.
pub fn line_after(line: Option<usize>, b: u8) -> Option<usize>
    requires small { IfSome line (λ n. n < 2 ^ 63) }
    ensures { result ≡ line_after_of line b }
{
    if b == b'\n' {
        Some(0)
    } else if is_blank(b) {
        match line {
            Some(n) => Some(n + 1),
            None => None,
        }
    } else {
        None
    }
}

/// Takes off the blanks before a place that stands alone on its line.
pub fn cut(line: Option<usize>, text: &mut Vec<u8>)
    ensures { text.new.items ≡ cut_of line text.old.items }
{
    if let Some(n) = line {
        text.truncate(text.len().saturating_sub(n));
    }
}

// What follows a line's end at the front.
fn line_end(bs: &[u8]) -> Option<&[u8]>
    ensures { MatchOption result (line_end_of bs.now ≡ None) (λ rest. line_end_of bs.now ≡ Some rest.now) }
{
    match bs {
        [] => Some(bs),
        [b'\n', rest @ ..] => Some(rest),
        [b'\r', b'\n', rest @ ..] => Some(rest),
        _ => None,
    }
}

/// Behind a directive: its line and what follows it, with the blanks before it taken off where it is alone on its line.
pub fn end_directive<'a>(
    line: Option<usize>,
    text: &mut Vec<u8>,
    bs: &'a [u8],
) -> (Option<usize>, &'a [u8])
    ensures { (text.new.items, (result.0, result.1.now)) ≡ lines_of line text.old.items bs.now }
{
    match (line, line_end(blanks(bs))) {
        (Some(_), Some(rest)) => {
            cut(line, text);
            (Some(0), rest)
        }
        _ => (None, bs),
    }
}
