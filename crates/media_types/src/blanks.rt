// Spaces and tabs.
ghost use Rattle.std.specs.Prelude.{◌≡◌};
ghost use Rattle.std.specs.List.{list_all};
ghost use Rattle.media_types.specs.Blanks.{is_blank as is_blank_of, without_start, without_end, trimmed};

#[tactic(auto, unfolding(crate::specs::Blanks::is_blank))]
fn is_blank(b: u8) -> bool
    ensures { result ≡ is_blank_of b }
{
    b == b' ' || b == b'\t'
}

/// Whether a text has nothing but spaces and tabs.
pub fn are_blank(text: &str) -> bool
    ensures { result ≡ list_all is_blank_of text.now }
{
    text.as_bytes().iter().all(|b| is_blank(*b))
}

fn trim_start(text: &str) -> &str
    ensures { result.now ≡ without_start text.now }
{
    let bytes = text.as_bytes();
    let mut start = 0;
    while start < bytes.len() && is_blank(bytes[start]) {
        start += 1;
    }
    let (_, rest) = text.split_at(start);
    rest
}

fn trim_end(text: &str) -> &str
    ensures { result.now ≡ without_end text.now }
{
    let bytes = text.as_bytes();
    let mut end = bytes.len();
    while end > 0 && is_blank(bytes[end - 1]) {
        end -= 1;
    }
    let (rest, _) = text.split_at(end);
    rest
}

/// The text without the spaces and tabs at its ends.
#[tactic(auto, unfolding(crate::specs::Blanks::trimmed))]
pub fn trim(text: &str) -> &str
    ensures { result.now ≡ trimmed text.now }
{
    trim_end(trim_start(text))
}
