// Posts that are spelled plainly. Nearly all are, and their names and numbers need no memory then.
ghost use Rattle.std.specs.Prelude.{◌≡◌, ◌==◌, ◌<◌, ◌∷◌, length, position, IfSome};
ghost use Rattle.record_fields.specs.Coding.{fields_of, parts_of};
ghost use Rattle.script_records.specs.Records.{post_by, record_in};

use record_fields::number;

/// The numbers of a `post`, and the fields behind them.
#[derive(Clone, Copy)]
pub struct PlainPost<'a> {
    pub moment: u64,
    pub word: u64,
    pub fields: &'a [u8],
}

fn space_at(line: &[u8]) -> Option<usize>
    ensures value { result ≡ position (λ b. b == 32) line.now }
    ensures bound { IfSome result (λ i. i < length line.now) }
{
    line.iter().position(|b| *b == b' ')
}

// The first part of a line, and what stands behind its space.
fn first_part(line: &[u8]) -> Option<(&[u8], &[u8])>
    ensures { IfSome result (λ parts. parts_of line.now ≡ parts.0.now ∷ parts_of parts.1.now) }
{
    let i = space_at(line)?;
    Some((&line[..i], &line[i + 1..]))
}

/// A `post` whose name and numbers are spelled without escapes.
pub fn plain_post(line: &[u8]) -> Option<PlainPost<'_>>
    ensures { IfSome result (λ post. record_in line.now ≡ post_by post.moment post.word (fields_of post.fields.now)) }
{
    let (name, rest) = first_part(line)?;
    if name != b"post".as_slice() {
        return None;
    }
    let (moment, rest) = first_part(rest)?;
    let (word, fields) = first_part(rest)?;
    Some(PlainPost {
        moment: number(moment)?,
        word: number(word)?,
        fields,
    })
}
