// Changes that are made ready before the keeper is asked: the row, and what it holds.
ghost use Rattle.std.specs.Prelude.{◌≡◌, ◌≤◌, ◌<◌, ◌+◌, ◌-◌, length, OnOk, OnErr};
ghost use Rattle.std.specs.Vec.{vec_capacity};
ghost use Rattle.keeper_core.specs.Held.{room_in};
ghost use Rattle.keeper_core.specs.Lists.{put as put_of, table_of};
ghost use Rattle.keeper_core.specs.Places.{IsWithin, put_at as put_at_of};
ghost use Rattle.book_opening.specs.Ready.{AreReady};
ghost use Rattle.book_core.specs.Changes.{IsHeldBy, HasRoomFor, IsPlaceIn, IsPutAt};

use api_model::Api;
use book_opening::{Ready, Standing};
use book_rules::Reply;
use gw_base::{Memory, Seq, Shared, Text};
use keeper_core::{JoinNumbers, KeyRow, Place, Row, Tables};

/// What a row holds, read.
pub enum Held {
    /// The definition of an API.
    Definition(Shared<Api>),
    /// The definition that was deployed.
    Deployed(Shared<Api>),
    /// A stage.
    Stands(Standing),
    /// The stages of a plan.
    Allows(Seq<(Text, Text)>),
    /// The row of a join holds nothing that is read.
    Nothing,
}

/// A row to write, what it holds, and the reply where it is kept.
#[derive(Drop)]
pub struct Change {
    pub row: Row,
    pub held: Held,
    pub reply: Reply,
}

/// What a command comes to before the keeper is asked.
#[derive(Drop)]
pub enum Prepared {
    /// A reply, and no change.
    Says(Reply),
    /// A change.
    Writes(Change),
    /// The row of a key, whose value no other key has.
    Names(KeyRow),
    /// Other numbers of the join at this place of its table, and the reply where they are kept.
    Rewrites(usize, JoinNumbers, Reply),
}

// Written by hand, so that a function that lets a value go makes one call in place of a branch for each variant.
impl Drop for Held {
    fn drop(self) {
        match self {
            Held::Definition(_) => {}
            Held::Deployed(_) => {}
            Held::Stands(_) => {}
            Held::Allows(_) => {}
            Held::Nothing => {}
        }
    }
}

// An item in its place, which takes no memory where there is room.
fn put_at<T: Drop>(items: &mut Vec<T>, place: Place, item: T)
    requires within { IsWithin place (length items.old.items) }
    requires room { length items.old.items < vec_capacity items.old }
    ensures { items.new.items ≡ put_at_of place item items.old.items }
{
    match place {
        Place::At(i) => items[i] = item,
        Place::Before(i) => items.insert(i, item).unwrap(),
    }
}

/// Room for one more of what is held.
pub fn reserve_held(ready: &mut Ready, held: &Held) -> Result<(), Memory>
    ensures definitions { ready.new.definitions.items ≡ ready.old.definitions.items }
    ensures deployments { ready.new.deployments.items ≡ ready.old.deployments.items }
    ensures stages { ready.new.stages.items ≡ ready.old.stages.items }
    ensures plans { ready.new.plans.items ≡ ready.old.plans.items }
    ensures keys { ready.new.keys ≡ ready.old.keys }
    ensures room { OnOk result (HasRoomFor held.now ready.new) }
{
    match held {
        Held::Definition(_) => ready.definitions.reserve(1)?,
        Held::Deployed(_) => ready.deployments.reserve(1)?,
        Held::Stands(_) => ready.stages.reserve(1)?,
        Held::Allows(_) => ready.plans.reserve(1)?,
        Held::Nothing => {}
    }
    Ok(())
}

impl Held {
    // What is held in the place of its row.
    fn put(self, ready: &mut Ready, place: Place)
        requires within { IsPlaceIn ready.old self place }
        requires room { HasRoomFor self ready.old }
        ensures { IsPutAt place self ready.old ready.new }
    {
        match self {
            Held::Definition(definition) => put_at(&mut ready.definitions, place, definition),
            Held::Deployed(definition) => put_at(&mut ready.deployments, place, definition),
            Held::Stands(stage) => put_at(&mut ready.stages, place, stage),
            Held::Allows(stages) => put_at(&mut ready.plans, place, stages),
            Held::Nothing => {}
        }
    }
}

/// The row in its table, and what it holds in the same place. There is room for both.
pub fn put(tables: &mut Tables, ready: &mut Ready, row: Row, held: Held)
    requires ready { AreReady tables.old.lists ready.old }
    requires held { IsHeldBy row held }
    requires table_room { 1 ≤ room_in (table_of row) tables.old.room }
    requires room { HasRoomFor held ready.old }
    ensures lists { tables.new.lists ≡ put_of row tables.old.lists }
    ensures ready { AreReady tables.new.lists ready.new }
{
    let place = tables.place(&row);
    tables.put(row).unwrap();
    held.put(ready, place);
}
