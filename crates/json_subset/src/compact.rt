// A text without the white space outside its strings.
ghost use Rattle.std.specs.Prelude.{◌≡◌, IfOk};
ghost use Rattle.std.specs.Str.{IsUtf8};
ghost use Rattle.std.specs.String.{string_bytes};
ghost use Rattle.json_subset.specs.Compact as says;
ghost use Rattle.json_subset.specs.Compact.{compacted};
ghost use Rattle.json_subset.specs.CompactView.{place_of};

use crate::scan::is_white;
use std::alloc::{AllocError, Global};

/// Where a byte stands.
#[derive(Clone, Copy, Drop)]
pub enum Place {
    Outside,
    InString,
    BehindBackslash,
}

// Where the byte behind this one stands.
fn next_place(place: Place, b: u8) -> Place
    ensures { place_of result ≡ says.next_place (place_of place) b }
{
    match place {
        Place::Outside => {
            if b == b'"' {
                Place::InString
            } else {
                Place::Outside
            }
        }
        Place::InString => {
            if b == b'"' {
                Place::Outside
            } else if b == b'\\' {
                Place::BehindBackslash
            } else {
                Place::InString
            }
        }
        Place::BehindBackslash => Place::InString,
    }
}

fn is_dropped(place: Place, b: u8) -> bool
    ensures { result ≡ says.is_dropped (place_of place) b }
{
    match place {
        Place::Outside => is_white(b),
        Place::InString => false,
        Place::BehindBackslash => false,
    }
}

fn compact_bytes(alloc: Global, bytes: &[u8]) -> Result<Vec<u8>, AllocError>
    ensures { IfOk result (λ v. v.items ≡ compacted bytes.now) }
{
    let mut kept = Vec::new(alloc);
    let mut place = Place::Outside;
    for b in bytes {
        if !is_dropped(place, *b) {
            kept.push(*b)?;
            place = next_place(place, *b);
        }
    }
    Ok(kept)
}

/// The text without the white space outside its strings.
pub fn compact_text(alloc: Global, text: &str) -> Result<String, AllocError>
    ensures { IfOk result (λ s. string_bytes s ≡ compacted text.now) }
{
    let kept = compact_bytes(alloc, text.as_bytes())?;
    match String::from_utf8(kept) {
        Ok(text) => Ok(text),
        Err(_) => unreachable!(),
    }
}
