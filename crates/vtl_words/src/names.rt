// Names that are looked for often: those of a text's macros, and the parameters of a macro.
ghost use Rattle.std.specs.Prelude.{◌≡◌, ◌++◌, ◌∷◌, ℕ, List, [], length, Some, None, OnOk, OnErr, bytes_eq, if◌then◌else◌};
ghost use Rattle.std.specs.BTreeMap.{IsUnchanged};
ghost use Rattle.vtl_grammar.specs.Bytes.{is_one_of};
ghost use Rattle.vtl_grammar.specs.Calls.{first_of};
ghost use Rattle.vtl_words.specs.Names.{place_of, get_by_bytes};

use gw_base::{Bytes, Memory};
use std::alloc::Global;
use std::collections::BTreeMap;
use std::marker::Model;

/// A list of names, in which one is found in the time of some comparisons, the logarithm of how many there are. A
/// contract sees it as the list.
#[derive(Drop)]
pub struct Names {
    list: Vec<Bytes>,
    places: BTreeMap<Vec<u8>, usize>,
}

impl Model for Names {
    ghost use Rattle.std.specs.Prelude.{◌≡◌, ℕ, List};
    ghost use Rattle.vtl_words.specs.Names.{place_of, get_by_bytes};

    ghost Value = { List (List ℕ) };

    ghost view = { λ t. t.list.items };

    ghost invariant = { λ t. (q : List ℕ) → get_by_bytes t.places q ≡ place_of t.list.items q };
}

// Gives a name a place, unless it has one.
fn enter(
    alloc: Global,
    places: &mut BTreeMap<Vec<u8>, usize>,
    name: &[u8],
    n: usize,
) -> Result<(), Memory>
    ensures entered { OnOk result ((q : List ℕ) → get_by_bytes places.new q ≡ first_of (get_by_bytes places.old q) (if bytes_eq name.now q then Some n else None)) }
    ensures unchanged { OnErr result (IsUnchanged places.old places.new) }
{
    if places.contains_key(name) {
        return Ok(());
    }
    let key = Vec::from_slice(alloc, name)?;
    places.insert(key, n)?;
    Ok(())
}

impl Names {
    /// No name.
    pub fn new(alloc: Global) -> Self
        ensures { result ≡ [] }
    {
        Names {
            list: Vec::new(alloc),
            places: BTreeMap::new(alloc),
        }
    }

    /// How many names there are, repeated ones counted.
    pub fn len(&self) -> usize
        ensures { result ≡ length self.now }
    {
        self.list.len()
    }

    /// The place of the first name that is this one.
    pub fn place(&self, name: &[u8]) -> Option<usize>
        ensures { result ≡ place_of self.now name.now }
    {
        self.places.get(name).copied()
    }

    /// Whether one of the names is this one.
    #[tactic(auto, using(crate::proofs::Named::one_of_place))]
    pub fn contains(&self, name: &[u8]) -> bool
        ensures { result ≡ is_one_of self.now name.now }
    {
        self.place(name).is_some()
    }

    /// One more name, behind the others.
    pub fn push(&mut self, alloc: Global, name: &[u8]) -> Result<(), Memory>
        ensures { OnOk result (self.new ≡ self.old ++ name.now ∷ []) }
    {
        let n = self.list.len();
        let bytes = Bytes::of(Vec::from_slice(alloc, name)?);
        self.list.push(bytes)?;
        match enter(alloc, &mut self.places, name, n) {
            Ok(()) => Ok(()),
            Err(e) => {
                let _ = self.list.pop();
                Err(e)
            }
        }
    }
}
