// Runs of text.
ghost use Rattle.std.specs.Prelude.{◌≡◌, ◌+◌, [], length, IfSome, IfOk, IfErr};
ghost use Rattle.vtl_grammar.specs.Fronts.{front_at as front_at_of, text_run as text_run_of};
ghost use Rattle.vtl_words.specs.Fronts.{front_view};
ghost use Rattle.vtl_reader.specs.declared.error.ReadError.TheVariants.{Memory as no_memory};

use crate::error::ReadError;
use vtl_words::fronts::{Front, front_at};
use vtl_words::lines::line_after;
use vtl_words::names::Names;

/// Takes the text at the front, raw text with it: tells its line, what follows it, and what stands there.
pub fn text_run<'a>(
    names: &Names,
    text: &mut Vec<u8>,
    start: Option<usize>,
    bs: &'a [u8],
) -> Result<(Option<usize>, &'a [u8], Front<'a>), ReadError>
    requires line { IfSome start (λ n. n ≡ 0) }
    requires text { text.old.items ≡ [] }
    ensures run { IfOk result (λ p. text_run_of names.now (length bs.now + 1) [] start bs.now ≡ (text.new.items, (p.0, p.1.now))) }
    ensures front { IfOk result (λ p. front_view p.2 ≡ front_at_of names.now p.1.now) }
    ensures err { IfErr result (λ e. e ≡ no_memory) }
{
    let mut line = start;
    let mut rest = bs;
    let mut fuel = bs.len() + 1;
    while fuel > 0 {
        fuel -= 1;
        match front_at(names, rest) {
            Front::Plain(b, more) => {
                text.push(b)?;
                line = line_after(line, b);
                rest = more;
            }
            Front::Raw(raw, more) => {
                text.extend_from_slice(raw)?;
                line = None;
                rest = more;
            }
            other => return Ok((line, rest, other)),
        }
    }
    Ok((line, rest, front_at(names, rest)))
}
