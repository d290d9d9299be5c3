// Where one text stands in another.
ghost use Rattle.std.specs.Prelude.{◌≡◌};
ghost use Rattle.std.specs.Option.{option_map};
ghost use Rattle.vtl_texts.specs.Places.{cut, contains, starts_with, ends_with};

/// What stands before the first `part`, and what behind it.
pub(crate) fn split_once<'a>(text: &'a str, part: &str) -> Option<(&'a str, &'a str)>
    ensures { option_map (λ c. (c.0.now, c.1.now)) result ≡ cut text.now part.now }
{
    text.split_once(part)
}

/// Whether `part` stands in the text.
#[tactic(auto, unfolding(crate::specs::Places::contains))]
pub fn contains(text: &str, part: &str) -> bool
    ensures { result ≡ contains text.now part.now }
{
    split_once(text, part).is_some()
}

/// Whether the text begins with `part`.
#[tactic(auto, using(std::proofs::lemmas::Str::Pattern::starts_text), unfolding(crate::specs::Places::starts_with))]
pub fn starts_with(text: &str, part: &str) -> bool
    ensures { result ≡ starts_with text.now part.now }
{
    text.starts_with(part)
}

/// Whether the text ends with `part`.
#[tactic(auto, using(std::proofs::lemmas::Str::Pattern::ends_text), unfolding(crate::specs::Places::ends_with))]
pub fn ends_with(text: &str, part: &str) -> bool
    ensures { result ≡ ends_with text.now part.now }
{
    text.ends_with(part)
}
