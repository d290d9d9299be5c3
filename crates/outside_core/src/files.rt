// Files in memory.
ghost use Rattle.std.specs.Prelude.{◌≡◌};
ghost use Rattle.std.specs.Option.{option_copied};
ghost use Rattle.outside_core.specs.Files.{content_of as content_of_in};

use gw_base::{Bytes, Text};

/// The content of the first file of this name.
pub(crate) fn content_of<'a>(name: &str, files: &'a [(Text, Bytes)]) -> Option<&'a [u8]>
    ensures { option_copied result ≡ content_of_in name.now files.now }
{
    let mut rest = files;
    while let [(first, content), others @ ..] = rest {
        if first.as_str() == name {
            return Some(content.as_slice());
        }
        rest = others;
    }
    None
}
