// Which texts a pattern covers: one scan of the text, with a place to return to.
ghost use Rattle.std.specs.Prelude.{◌≡◌, ◌∷◌, [], ◌≤◌, length, None, Some, IfSome, MatchOption};
ghost use Rattle.std.specs.Str.{chars};
ghost use Rattle.policy_core.specs.Patterns as says;
ghost use Rattle.policy_core.specs.Views.{same_of};

/// How characters are compared.
#[derive(Clone, Copy)]
pub enum Case {
    /// As they are.
    Exact,
    /// Without regard to ASCII case.
    Ignored,
}

/// Whether the pattern covers the text: `*` any run of characters, `?` any one. It looks at no more
/// pairs of characters than the product of the two lengths.
pub fn covers(case: Case, pattern: &str, text: &str) -> bool
    ensures { result ≡ says.covers (same_of case) (chars pattern.now) (chars text.now) }
{
    let Some(mut left) = after_run(case, pattern, text) else {
        return false;
    };
    while let Some(rest) = behind_star(left.0) {
        let Some(next) = first_place(case, rest, left.1) else {
            return false;
        };
        left = next;
    }
    true
}

/// Behind a star: what is left of the pattern and of the text at the first place where the pattern
/// up to its next star, or to its end, takes the text there.
fn first_place<'a>(case: Case, pattern: &'a str, text: &'a str) -> Option<(&'a str, &'a str)>
    ensures value { MatchOption result (says.first_place (same_of case) (chars pattern.now) (chars text.now) ≡ None) (λ p. says.first_place (same_of case) (chars pattern.now) (chars text.now) ≡ Some (chars p.0.now, chars p.1.now)) }
{
    let mut place = text;
    loop {
        if let Some(left) = after_run(case, pattern, place) {
            return Some(left);
        }
        place = next_char(place)?.1;
    }
}

/// What is left of both where the pattern up to its next star takes the text at the front, or, where
/// no star follows, all of it.
fn after_run<'a>(case: Case, pattern: &'a str, text: &'a str) -> Option<(&'a str, &'a str)>
    ensures value { MatchOption result (says.after_run (same_of case) (chars pattern.now) (chars text.now) ≡ None) (λ p. says.after_run (same_of case) (chars pattern.now) (chars text.now) ≡ Some (chars p.0.now, chars p.1.now)) }
{
    let mut pattern = pattern;
    let mut text = text;
    while let Some((c, more)) = next_char(pattern) {
        if c == '*' {
            return Some((pattern, text));
        }
        let (d, rest) = next_char(text)?;
        if !takes(case, c, d) {
            return None;
        }
        pattern = more;
        text = rest;
    }
    if next_char(text).is_none() {
        Some((pattern, text))
    } else {
        None
    }
}

/// What follows the star, where one stands at the front of a pattern.
fn behind_star(pattern: &str) -> Option<&str>
    ensures { MatchOption result (says.behind_star (chars pattern.now) ≡ None) (λ rest. says.behind_star (chars pattern.now) ≡ Some (chars rest.now)) }
{
    let (c, rest) = next_char(pattern)?;
    if c == '*' { Some(rest) } else { None }
}

/// Whether a character of a pattern, other than the star, takes one of the text.
fn takes(case: Case, c: char, d: char) -> bool
    ensures { result ≡ says.takes (same_of case) c d }
{
    c == '?' || same(case, c, d)
}

fn same(case: Case, c: char, d: char) -> bool
    ensures { result ≡ same_of case c d }
{
    match case {
        Case::Exact => c == d,
        Case::Ignored => c.eq_ignore_ascii_case(&d),
    }
}

/// The first character, and what follows it.
fn next_char(text: &str) -> Option<(char, &str)>
    ensures { MatchOption result (chars text.now ≡ []) (λ p. chars text.now ≡ p.0 ∷ chars p.1.now) }
{
    let mut chars = text.chars();
    let c = chars.next()?;
    Some((c, chars.as_str()))
}
