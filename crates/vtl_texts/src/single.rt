// One byte in the place of another.
ghost use Rattle.std.specs.Prelude.{◌≡◌, ◌<◌, [], ◌∷◌, IsAscii, IfOk};
ghost use Rattle.std.specs.String.{string_bytes};
ghost use Rattle.vtl_texts.specs.Places.{exchanged};

use gw_base::Memory;
use std::alloc::Global;

/// The ASCII text with one byte in the place of each other.
pub(crate) fn with_byte(alloc: Global, text: &str, old: u8, new: u8) -> Result<String, Memory>
    requires text { IsAscii text.now }
    requires new { new < 128 }
    ensures { IfOk result (λ made. string_bytes made ≡ exchanged text.now (old ∷ []) (new ∷ [])) }
{
    let mut bytes = Vec::from_slice(alloc, text.as_bytes())?;
    change_byte(bytes.as_mut_slice(), old, new);
    Ok(String::from_utf8(bytes).unwrap())
}

fn change_byte(bytes: &mut [u8], old: u8, new: u8)
    ensures { bytes.new ≡ exchanged bytes.old (old ∷ []) (new ∷ []) }
{
    for b in bytes.iter_mut() {
        // A store at each byte, so that many are changed at a time.
        *b = if *b == old { new } else { *b };
    }
}
