// A short name in place.
ghost use Rattle.std.specs.Prelude.{◌≡◌, ◌≤◌, ℕ, List, length, All};
ghost use Rattle.gw_base.specs.Names.{is_ascii};

use std::marker::Model;

/// The most bytes of a name.
const CAPACITY: usize = 64;

/// At most 64 bytes of ASCII, held in place. A contract sees them as their list.
#[derive(Drop)]
pub struct Name {
    bytes: [u8; CAPACITY],
    len: u8,
}

impl Model for Name {
    ghost use Rattle.std.specs.Prelude.{ℕ, List, take, ◌≤◌};

    ghost Value = { List ℕ };

    ghost view = { λ n. take n.len n.bytes };

    ghost invariant = { λ n. n.len ≤ 64 };
}

impl Name {
    /// The name of these bytes, without memory.
    pub fn of(text: &str) -> Self
        requires ascii { is_ascii text.now }
        requires short { length text.now ≤ 64 }
        ensures { result ≡ text.now }
    {
        let mut bytes = [0; CAPACITY];
        bytes[..text.len()].copy_from_slice(text.as_bytes());
        Name {
            bytes,
            len: text.len() as u8,
        }
    }

    /// Its bytes.
    pub fn as_bytes(&self) -> &[u8]
        ensures { result.now ≡ self.now }
    {
        &self.bytes[..self.len as usize]
    }
}
