// The place of the last flush of each stage.
ghost use Rattle.std.specs.Prelude.{◌≡◌, [], None, IfOk, OnOk, OnErr, MatchOption};
ghost use Rattle.policy_memory.specs.Names.{same_stage};
ghost use Rattle.policy_memory.specs.Kept.{last_in, Flushes as FlushedAt, IsFirstFlush};

use gw_base::{Memory, Text};
use std::alloc::{AllocError, AllocFailed, Global};

/// The last flush of a stage.
#[derive(Drop)]
pub(crate) struct StageFlush {
    pub(crate) api: Text,
    pub(crate) stage: Text,
    pub(crate) place: u64,
}

impl StageFlush {
    #[tactic(auto, unfolding(crate::specs::Names::same_stage))]
    fn is_of(&self, api: &str, stage: &str) -> bool
        ensures { result ≡ same_stage self.now.api self.now.stage api.now stage.now }
    {
        self.api.as_str() == api && self.stage.as_str() == stage
    }
}

fn text_of(alloc: Global, text: &str) -> Result<Text, Memory>
    ensures { IfOk result (λ other. other ≡ text.now) }
{
    Ok(Text::of(String::from_str(alloc, text)?))
}

/// The place of the last flush of an API and stage, over one look at each row.
fn last_flush(rows: &[StageFlush], api: &str, stage: &str) -> Option<u64>
    ensures { result ≡ last_in rows.now api.now stage.now }
{
    for row in rows {
        if row.is_of(api, stage) {
            return Some(row.place);
        }
    }
    None
}

/// The index of the row of an API and stage.
fn find_flush(rows: &[StageFlush], api: &str, stage: &str) -> Option<usize>
    ensures { MatchOption result (last_in rows.now api.now stage.now ≡ None) (IsFirstFlush rows.now api.now stage.now) }
{
    for i in 0..rows.len() {
        if rows[i].is_of(api, stage) {
            return Some(i);
        }
    }
    None
}

/// The last flush of each stage that was flushed, one row a stage.
#[derive(Drop)]
pub(crate) struct StageFlushes {
    pub(crate) rows: Vec<StageFlush>,
}

impl StageFlushes {
    /// No stage was flushed.
    pub(crate) fn new(alloc: Global) -> Self
        ensures { result.rows.items ≡ [] }
    {
        StageFlushes {
            rows: Vec::new(alloc),
        }
    }

    /// The place of the last flush of an API and stage.
    pub(crate) fn last(&self, api: &str, stage: &str) -> Option<u64>
        ensures { result ≡ last_in self.now.rows.items api.now stage.now }
    {
        last_flush(self.rows.as_slice(), api, stage)
    }

    // Adds the first flush of an API and stage.
    fn add(&mut self, alloc: Global, api: &str, stage: &str, place: u64) -> Result<(), Memory>
        requires { last_in self.old.rows.items api.now stage.now ≡ None }
        ensures noted { OnOk result (FlushedAt self.old.rows.items api.now stage.now place self.new.rows.items) }
        ensures unchanged { OnErr result (self.new.rows.items ≡ self.old.rows.items) }
    {
        let api_text = text_of(alloc, api)?;
        let stage_text = text_of(alloc, stage)?;
        self.rows.push(StageFlush {
            api: api_text,
            stage: stage_text,
            place,
        })?;
        Ok(())
    }

    /// Notes a later flush in place of the last one. Only the first flush of a stage takes memory.
    pub(crate) fn note(
        &mut self,
        alloc: Global,
        api: &str,
        stage: &str,
        place: u64,
    ) -> Result<(), Memory>
        ensures noted { OnOk result (FlushedAt self.old.rows.items api.now stage.now place self.new.rows.items) }
        ensures unchanged { OnErr result (self.new.rows.items ≡ self.old.rows.items) }
    {
        match find_flush(self.rows.as_slice(), api, stage) {
            Some(i) => {
                self.rows[i].place = place;
                Ok(())
            }
            None => self.add(alloc, api, stage, place),
        }
    }
}
