// Names, in their order and for a look-up.
ghost use Rattle.std.specs.Prelude.{◌≡◌, [], ◌∷◌, ◌++◌, List, ℕ, true, IfOk, OnOk, if◌then◌else◌};
ghost use Rattle.std.specs.BTreeSet.{contains_text};
ghost use Rattle.std.specs.Str.{bytes_eq};
ghost use Rattle.std.specs.String.{string_bytes};
ghost use Rattle.json_subset.specs.Reading.{named};
ghost use Rattle.schema_rules.specs.Views.{IsNameSet, names_of};

use crate::rule::Names;
use gw_base::Memory;
use std::alloc::Global;
use std::collections::BTreeSet;

/// No name.
pub fn no_names(alloc: Global) -> Names
    ensures list { names_of result ≡ [] }
    ensures set { IsNameSet result }
{
    Names {
        list: Vec::new(alloc),
        index: BTreeSet::new(alloc),
    }
}

/// Whether this is one of the names.
pub fn is_named(names: &Names, name: &str) -> bool
    requires { IsNameSet names.now }
    ensures { result ≡ named (names_of names.now) name.now }
{
    names.index.contains(name)
}

// A text of its own.
fn owned(alloc: Global, text: &str) -> Result<String, Memory>
    ensures { IfOk result (λ s. string_bytes s ≡ text.now) }
{
    Ok(String::from_str(alloc, text)?)
}

fn enter(alloc: Global, index: &mut BTreeSet<String>, name: &str) -> Result<(), Memory>
    ensures { OnOk result ((q : List ℕ) → contains_text index.new q ≡ (if bytes_eq name.now q then true else contains_text index.old q)) }
{
    let key = owned(alloc, name)?;
    index.insert(key)?;
    Ok(())
}

/// One more name.
pub fn push_name(alloc: Global, names: &mut Names, name: &str) -> Result<(), Memory>
    requires set { IsNameSet names.old }
    ensures list { OnOk result (names_of names.new ≡ names_of names.old ++ name.now ∷ []) }
    ensures set { OnOk result (IsNameSet names.new) }
{
    enter(alloc, &mut names.index, name)?;
    let key = owned(alloc, name)?;
    names.list.push(key)?;
    Ok(())
}
