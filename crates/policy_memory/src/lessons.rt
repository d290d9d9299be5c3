// What was learned, and what is remembered of it.
ghost use Rattle.std.specs.Prelude.{◌≡◌, ◌+◌, ◌*◌, ℕ, List, [], ◌∷◌, nat_lt, option_copied, IfOk, OnOk, OnErr};
ghost use Rattle.std.specs.NonZero.{non_zero_usize_get};
ghost use Rattle.policy_memory.specs.Kept.{Remembers, found, learned_of};
ghost use Rattle.policy_memory.specs.Remembered.{Happening, learned, flushed, remembered};

use crate::flushes::StageFlushes;
use crate::names::PolicyName;
use gw_base::{Memory, Shared};
use lru::LruCache;
use policy_core::Policy;
use std::alloc::{AllocError, AllocFailed, Global};
use std::marker::Model;
use std::num::NonZeroUsize;

/// How many names have a place.
const MOST_NAMES: usize = 1_024;

fn most_names() -> NonZeroUsize
    ensures { non_zero_usize_get result ≡ 1024 }
{
    NonZeroUsize::new(MOST_NAMES).unwrap()
}

/// What is learned under a name.
#[derive(Drop)]
pub struct Lesson {
    /// The policy.
    pub policy: Shared<Policy>,
    /// For how many seconds it may be used.
    pub ttl: u32,
    /// The moment at which it is learned, in milliseconds.
    pub at: u64,
    /// The place of this in the session: each event has one, and they grow.
    pub place: u64,
}

// Whether what was learned at a moment, for so many seconds, may be used at another.
fn is_usable(t: u64, at: u64, ttl: u32) -> bool
    ensures { result ≡ nat_lt t (at + 1000 * ttl) }
{
    t < at || t - at < 1_000 * u64::from(ttl)
}

/// The policies that are remembered.
pub struct PolicyMemory {
    lessons: LruCache<PolicyName, Lesson>,
    flushes: StageFlushes,
}

impl Drop for PolicyMemory {
    fn drop(self) {
        let PolicyMemory {
            lessons: _,
            flushes: _,
        } = self;
    }
}

impl Model for PolicyMemory {
    ghost use Rattle.std.specs.Prelude.{◌≡◌};
    ghost use Rattle.policy_memory.specs.Kept.{Kept};

    ghost Value = { Kept };

    ghost view = { λ m. record { lessons = m.lessons.entries; flushes = m.flushes.rows.items } };

    ghost invariant = { λ m. m.lessons.cap ≡ 1024 };
}

impl PolicyMemory {
    /// Nothing is remembered.
    pub fn start(alloc: Global) -> Result<Self, Memory>
        ensures { IfOk result (λ memory. Remembers [] 0 memory) }
    {
        Ok(PolicyMemory {
            lessons: LruCache::new(alloc, most_names())?,
            flushes: StageFlushes::new(alloc),
        })
    }

    // Looks, whatever the history.
    fn look(&self, name: &PolicyName, t: u64) -> Option<&Shared<Policy>>
        ensures { option_copied result ≡ found self.now name.now t }
    {
        let lesson = self.lessons.peek(name)?;
        let flush = self.flushes.last(name.api.as_str(), name.stage.as_str());
        if flush.is_some_and(|flush| lesson.place < flush) || !is_usable(t, lesson.at, lesson.ttl) {
            return None;
        }
        Some(&lesson.policy)
    }

    /// The policy that is remembered of a name at a moment. It takes no memory, and a look renews no place.
    pub fn recall(&self, name: &PolicyName, t: u64) -> Option<&Shared<Policy>>
        ensures { (happened : List Happening) (next : ℕ) → Remembers happened next self.now → option_copied result ≡ remembered happened name.now t }
    {
        self.look(name, t)
    }

    /// Learns a policy under a name, in place of what was learned under it before. Where memory is wanting nothing changes.
    pub fn learn(&mut self, name: PolicyName, lesson: Lesson) -> Result<(), Memory>
        ensures remembers { OnOk result ((happened : List Happening) → Remembers happened lesson.place self.old → Remembers (learned name (learned_of lesson) ∷ happened) (lesson.place + 1) self.new) }
        ensures unchanged { OnErr result (self.new ≡ self.old) }
    {
        self.lessons.put(name, lesson)?;
        Ok(())
    }

    /// Forgets all that was learned at an API and stage. Where memory is wanting nothing changes.
    pub fn flush(&mut self, alloc: Global, api: &str, stage: &str, place: u64) -> Result<(), Memory>
        ensures remembers { OnOk result ((happened : List Happening) → Remembers happened place self.old → Remembers (flushed api.now stage.now ∷ happened) (place + 1) self.new) }
        ensures unchanged { OnErr result (self.new ≡ self.old) }
    {
        self.flushes.note(alloc, api, stage, place)?;
        Ok(())
    }
}
