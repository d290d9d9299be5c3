// The names of keys by their values.
ghost use Rattle.std.specs.Prelude.{◌≡◌, ℕ, List, None, Some, OnOk, OnErr};
ghost use Rattle.std.specs.Map.{update};
ghost use Rattle.std.specs.Option.{option_copied};
ghost use Rattle.std.specs.Str.{bytes_eq};
ghost use Rattle.key_index.specs.Indexes.{key_in, renamed};

use gw_base::{Memory, Text};
use std::alloc::Global;
use std::collections::BTreeMap;
use std::marker::Model;

/// The names of API keys by their values. A contract sees the name that each value has.
pub struct KeyIndex {
    names: BTreeMap<String, Text>,
}

// Written by hand, so that what holds an index sees one call.
impl Drop for KeyIndex {
    fn drop(self) {
        let KeyIndex { names: _ } = self;
    }
}

impl Model for KeyIndex {
    ghost use Rattle.std.specs.Prelude.{ℕ, List, map};
    ghost use Rattle.std.specs.String.{string_bytes};

    ghost Value = { List (List ℕ × List ℕ) };

    ghost view = { λ index. map (λ entry. (string_bytes entry.0, entry.1)) index.names.entries };
}

impl KeyIndex {
    /// An index without keys. It takes no memory.
    pub fn new(alloc: Global) -> Self
        ensures { (value : List ℕ) → key_in result value ≡ None }
    {
        KeyIndex {
            names: BTreeMap::new(alloc),
        }
    }

    /// The name of the key of this value.
    pub fn find(&self, value: &str) -> Option<&Text>
        ensures { option_copied result ≡ key_in self.now value.now }
    {
        self.names.get(value)
    }

    /// Gives the value to the key, beside the value that the key has. Where memory is wanting, nothing changes.
    pub fn enter(&mut self, alloc: Global, value: &str, key: &str) -> Result<(), Memory>
        ensures entered { OnOk result ((v : List ℕ) → key_in self.new v ≡ update bytes_eq (key_in self.old) value.now (Some key.now) v) }
        ensures refused { OnErr result ((v : List ℕ) → key_in self.new v ≡ key_in self.old v) }
    {
        let name = Text::of(String::from_str(alloc, key)?);
        let value = String::from_str(alloc, value)?;
        self.names.insert(value, name)?;
        Ok(())
    }

    /// Takes the value from whichever key has it. It takes no memory.
    pub fn leave(&mut self, value: &str)
        ensures { (v : List ℕ) → key_in self.new v ≡ update bytes_eq (key_in self.old) value.now None v }
    {
        let _ = self.names.remove(value);
    }

    /// Gives the value to the key, in place of the value that the key had before. Where memory is wanting, nothing changes.
    pub fn put(
        &mut self,
        alloc: Global,
        before: Option<&str>,
        value: &str,
        key: &str,
    ) -> Result<(), Memory>
        ensures put { OnOk result ((v : List ℕ) → key_in self.new v ≡ renamed (key_in self.old) (option_copied before.entry) value.now key.now v) }
        ensures refused { OnErr result ((v : List ℕ) → key_in self.new v ≡ key_in self.old v) }
    {
        self.enter(alloc, value, key)?;
        if let Some(before) = before {
            if before != value {
                self.leave(before);
            }
        }
        Ok(())
    }
}
