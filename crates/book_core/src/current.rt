// What stands after the entries of a history, and how an event changes it.
ghost use Rattle.std.specs.Prelude.{◌≡◌, ◌+◌, ◌<◌, ℕ, true, false, not, ◌&&◌, List, [], length, Some, None, Bool, IfOk, IfSome, IsOk, IsTrue, OnOk, OnErr, is_some};
ghost use Rattle.keeper_core.specs.Lists.{stage_row};
ghost use Rattle.keeper_core.specs.declared.rows.Row.TheVariants.{Join as join_of, Key as key_of};
ghost use Rattle.book_rules.specs.Fits.{AreFit};
ghost use Rattle.book_rules.specs.Commands.{commanded};
ghost use Rattle.book_rules.specs.History.{rewrites, rewrites_by, wants_memory};
ghost use Rattle.book_rules.specs.Outcomes.{says};
ghost use Rattle.book_rules.specs.StageCommands.{flush as flush_of};
ghost use Rattle.book_rules.specs.declared.events.Event.TheVariants.{Admin as admin_of};
ghost use Rattle.book_rules.specs.PlanCommands.{is_of_another, key_with};
ghost use Rattle.book_rules.specs.Machine.{time_of, entered, outcome_of, row_of, told, after, put_kept, takes_memory, is_shared, flushed_at, happened_by, happened_behind};
ghost use Rattle.policy_memory.specs.Kept.{Remembers};
ghost use Rattle.policy_memory.specs.Remembered.{Happening};
ghost use Rattle.book_opening.specs.Ready.{AreReady};
ghost use Rattle.book_core.specs.Changes.{IsHeldBy, IsMeant, IsReadyIn, outcome_in, rewritten_at};
ghost use Rattle.book_core.specs.Keeps.{Went, Stays};
ghost use Rattle.book_core.specs.Standing.{is_taken_to, number_to, standing, variables_to};

use crate::admitting::admit;
use crate::changes::{Change, Prepared, put, reserve_held};
use crate::finds::{find_deployment, find_stage, keys_ascend};
use crate::naming::{enter_value, leave_old, leave_value, named_in};
use crate::policies::{Learning, learn, recall};
use crate::prepare::prepare;
use book_opening::{Ready, Standing};
use book_rules::{Command, Event, Refusal, Reply, View};
use call_facts::Vars;
use gw_base::{Memory, Shared, Text};
use keeper_core::{JoinNumbers, KeepFault, Keeper, KeyRow, Row, Table, Tables, keep, rewrite_at};
use policy_memory::PolicyMemory;
use stage_canary::takes_canary;
use std::alloc::Global;

/// The last moment of the year 2099; a later one is read as this.
const LAST_MOMENT: u64 = 4_102_444_799_999;

/// The tables as they stand with what their rows hold, the latest moment, whether the session is closing, and the policies that are
/// remembered.
#[derive(Drop)]
pub struct Current {
    pub tables: Tables,
    pub ready: Ready,
    pub latest: u64,
    pub closing: bool,
    pub policies: PolicyMemory,
}

/// The reply to an event, and whether its change was kept.
#[derive(Drop)]
pub struct Taken {
    pub reply: Reply,
    pub kept: bool,
}

#[tactic(auto, unfolding(book_rules::specs::Machine::last_moment))]
fn later(current: &Current, moment: u64) -> u64
    ensures { result ≡ time_of (standing [] current.now) moment }
{
    moment.min(LAST_MOMENT).max(current.latest)
}

// When an event of this moment happens: then too the rows may stand.
fn time(current: &Current, moment: u64) -> u64
    requires fits { AreFit current.now.tables.lists current.now.latest }
    ensures value { result ≡ time_of (standing [] current.now) moment }
    ensures fits { AreFit current.now.tables.lists result }
{
    later(current, moment)
}

// Where and when a request comes to a stage, with its word of chance.
#[derive(Clone, Copy)]
struct Entering {
    place: u64,
    at: u64,
    word: u64,
}

// The deployment by which a request is answered, with the variables.
#[derive(Clone, Copy)]
struct Chosen<'a> {
    canary: bool,
    deployment: u32,
    variables: &'a Shared<Vars>,
}

// By the stage's canary, where it has one and the word is taken to it, or by the stage itself.
fn choose(stands: &Standing, word: u64) -> Chosen
    ensures canary { result.canary ≡ is_taken_to stands.now word }
    ensures deployment { result.deployment ≡ number_to stands.now word }
    ensures variables { result.variables.now ≡ variables_to stands.now word }
{
    match &stands.canary {
        Some(canary) if takes_canary(canary.share, word) => Chosen {
            canary: true,
            deployment: canary.deployment,
            variables: &canary.variables,
        },
        _ => Chosen {
            canary: false,
            deployment: stands.deployment,
            variables: &stands.variables,
        },
    }
}

// The view of a stage, or that there is none.
fn enter(
    tables: &Tables,
    ready: &Ready,
    entering: Entering,
    api: &Text,
    stage: &Text,
) -> Result<Reply, Memory>
    requires ready { AreReady tables.now.lists ready.now }
    ensures reply { IfOk result (λ reply. reply ≡ entered tables.now.lists entering.place entering.at entering.word (stage_row tables.now.lists api.now stage.now)) }
    ensures memory { OnErr result (is_shared (entered tables.now.lists entering.place entering.at entering.word (stage_row tables.now.lists api.now stage.now)) ≡ true) }
{
    let Some(stands) = find_stage(tables, ready, api.as_str(), stage.as_str()) else {
        return Ok(Reply::NoStage);
    };
    let chosen = choose(stands, entering.word);
    let number = u64::from(chosen.deployment);
    let Some(definition) = find_deployment(tables, ready, api.as_str(), number) else {
        return Ok(Reply::NoStage);
    };
    Ok(Reply::Entered(View {
        place: entering.place,
        at: entering.at,
        deployment: chosen.deployment,
        canary: chosen.canary,
        api: definition.share()?,
        variables: chosen.variables.share()?,
    }))
}

// Asks the keeper for a change, and makes it where it was kept. An `Err` changes nothing.
fn write<K: Keeper>(
    current: &mut Current,
    keeper: &mut K,
    alloc: Global,
    change: Change,
) -> Result<Taken, Memory>
    requires ready { AreReady current.old.tables.lists current.old.ready }
    requires held { IsHeldBy change.row change.held }
    requires nothing_staged { (K.facts keeper.old).staged ≡ [] }
    ensures reply { IfOk result (λ taken. taken.reply ≡ told true change.reply taken.kept) }
    ensures lists { IfOk result (λ taken. current.new.tables.lists ≡ put_kept (Some change.row) taken.kept current.old.tables.lists) }
    ensures keeper { IfOk result (λ taken. Went false (Some change.row) taken.kept (K.facts keeper.old) (K.facts keeper.new)) }
    ensures ready { AreReady current.new.tables.lists current.new.ready }
    ensures latest { current.new.latest ≡ current.old.latest }
    ensures closing { current.new.closing ≡ current.old.closing }
    ensures policies { current.new.policies ≡ current.old.policies }
    ensures err { OnErr result (current.new.tables.lists ≡ current.old.tables.lists) }
    ensures stays { OnErr result (Stays (K.facts keeper.old) (K.facts keeper.new)) }
{
    let Change { row, held, reply } = change;
    current.tables.reserve(row.table(), 1)?;
    reserve_held(&mut current.ready, &held)?;
    match keep(keeper, alloc, &row) {
        Ok(()) => {
            put(&mut current.tables, &mut current.ready, row, held);
            Ok(Taken { reply, kept: true })
        }
        Err(KeepFault::Failed) => Ok(Taken {
            reply: Reply::Store,
            kept: false,
        }),
        Err(KeepFault::Memory) => Err(Memory),
    }
}

// Asks the keeper for the row of a key, and puts it and its value where it was kept. An `Err` changes nothing.
fn name_key<K: Keeper>(
    current: &mut Current,
    keeper: &mut K,
    alloc: Global,
    row: KeyRow,
) -> Result<Taken, Memory>
    requires ready { AreReady current.old.tables.lists current.old.ready }
    requires free { is_of_another row.key (key_with current.old.tables.lists row.value) ≡ false }
    requires nothing_staged { (K.facts keeper.old).staged ≡ [] }
    ensures reply { IfOk result (λ taken. taken.reply ≡ told true Reply.Done taken.kept) }
    ensures lists { IfOk result (λ taken. current.new.tables.lists ≡ put_kept (Some (key_of row)) taken.kept current.old.tables.lists) }
    ensures keeper { IfOk result (λ taken. Went false (Some (key_of row)) taken.kept (K.facts keeper.old) (K.facts keeper.new)) }
    ensures ready { AreReady current.new.tables.lists current.new.ready }
    ensures latest { current.new.latest ≡ current.old.latest }
    ensures closing { current.new.closing ≡ current.old.closing }
    ensures policies { current.new.policies ≡ current.old.policies }
    ensures err { OnErr result (current.new.tables.lists ≡ current.old.tables.lists) }
    ensures stays { OnErr result (Stays (K.facts keeper.old) (K.facts keeper.new)) }
{
    current.tables.reserve(Table::Keys, 1)?;
    keys_ascend(&current.tables);
    let row = Row::Key(row);
    let (key, value) = named_in(&row);
    let is_own = enter_value(&mut current.ready.keys, alloc, key, value)?;
    match keep(keeper, alloc, &row) {
        Ok(()) => {
            leave_old(&current.tables, &mut current.ready.keys, key, value);
            current.tables.put(row).unwrap();
            Ok(Taken {
                reply: Reply::Done,
                kept: true,
            })
        }
        Err(KeepFault::Failed) => {
            leave_value(&mut current.ready.keys, value, is_own);
            Ok(Taken {
                reply: Reply::Store,
                kept: false,
            })
        }
        Err(KeepFault::Memory) => {
            leave_value(&mut current.ready.keys, value, is_own);
            Err(Memory)
        }
    }
}

// Asks the keeper for other numbers of the join at this place, and writes them where they were kept. An `Err` changes nothing.
fn rewrite<K: Keeper>(
    current: &mut Current,
    keeper: &mut K,
    alloc: Global,
    at: usize,
    numbers: JoinNumbers,
    reply: Reply,
) -> Result<Taken, Memory>
    requires ready { AreReady current.old.tables.lists current.old.ready }
    requires inside { at < length current.old.tables.lists.joins }
    requires told { IfSome (K.facts keeper.old).tables (λ lists. lists ≡ current.old.tables.lists) }
    requires nothing_staged { (K.facts keeper.old).staged ≡ [] }
    ensures reply { IfOk result (λ taken. taken.reply ≡ told true reply taken.kept) }
    ensures lists { IfOk result (λ taken. current.new.tables.lists ≡ put_kept (Some (join_of (rewritten_at current.old.tables.lists at numbers))) taken.kept current.old.tables.lists) }
    ensures keeper { IfOk result (λ taken. Went true (Some (join_of (rewritten_at current.old.tables.lists at numbers))) taken.kept (K.facts keeper.old) (K.facts keeper.new)) }
    ensures ready { AreReady current.new.tables.lists current.new.ready }
    ensures latest { current.new.latest ≡ current.old.latest }
    ensures closing { current.new.closing ≡ current.old.closing }
    ensures policies { current.new.policies ≡ current.old.policies }
    ensures err { OnErr result (current.new.tables.lists ≡ current.old.tables.lists) }
    ensures stays { OnErr result (Stays (K.facts keeper.old) (K.facts keeper.new)) }
    ensures memory { IsTrue K.IN_PLACE → IsOk result }
{
    match rewrite_at(keeper, alloc, &mut current.tables, at, numbers) {
        Ok(()) => Ok(Taken { reply, kept: true }),
        Err(KeepFault::Failed) => Ok(Taken {
            reply: Reply::Store,
            kept: false,
        }),
        Err(KeepFault::Memory) => Err(Memory),
    }
}

// Carries out what was prepared.
fn carry_out<K: Keeper>(
    current: &mut Current,
    keeper: &mut K,
    alloc: Global,
    prepared: Prepared,
) -> Result<Taken, Memory>
    requires prepared { IsReadyIn current.old.tables.lists prepared }
    requires ready { AreReady current.old.tables.lists current.old.ready }
    requires told { IfSome (K.facts keeper.old).tables (λ lists. lists ≡ current.old.tables.lists) }
    requires nothing_staged { (K.facts keeper.old).staged ≡ [] }
    ensures reply { IfOk result (λ taken. taken.reply ≡ told (is_some (outcome_in current.old.tables.lists prepared).row) (outcome_in current.old.tables.lists prepared).reply taken.kept) }
    ensures lists { IfOk result (λ taken. current.new.tables.lists ≡ put_kept (outcome_in current.old.tables.lists prepared).row taken.kept current.old.tables.lists) }
    ensures keeper { IfOk result (λ taken. (rewriting : Bool) → IsMeant rewriting prepared → Went rewriting (outcome_in current.old.tables.lists prepared).row taken.kept (K.facts keeper.old) (K.facts keeper.new)) }
    ensures ready { AreReady current.new.tables.lists current.new.ready }
    ensures latest { current.new.latest ≡ current.old.latest }
    ensures closing { current.new.closing ≡ current.old.closing }
    ensures policies { current.new.policies ≡ current.old.policies }
    ensures err { OnErr result (current.new.tables.lists ≡ current.old.tables.lists) }
    ensures stays { OnErr result (Stays (K.facts keeper.old) (K.facts keeper.new)) }
    ensures memory { (rewriting : Bool) → IsMeant rewriting prepared → OnErr result ((takes_memory (outcome_in current.old.tables.lists prepared) && not (K.IN_PLACE && rewriting)) ≡ true) }
{
    match prepared {
        Prepared::Says(reply) => Ok(Taken { reply, kept: true }),
        Prepared::Writes(change) => write(current, keeper, alloc, change),
        Prepared::Names(row) => name_key(current, keeper, alloc, row),
        Prepared::Rewrites(at, numbers, reply) => rewrite(
            current, keeper, alloc, at, numbers, reply,
        ),
    }
}

// Forgets the policies of a stage that stands. An `Err` changes nothing.
fn flush(
    current: &mut Current,
    alloc: Global,
    place: u64,
    api: &Text,
    stage: &Text,
) -> Result<Taken, Memory>
    ensures reply { IfOk result (λ taken. says taken.reply ≡ flush_of (stage_row current.old.tables.lists api.now stage.now)) }
    ensures kept { IfOk result (λ taken. taken.kept ≡ true) }
    ensures remembers { (happened : List Happening) → Remembers happened place current.old.policies
        → OnOk result (Remembers (flushed_at (stage_row current.old.tables.lists api.now stage.now) api.now stage.now happened) (place + 1) current.new.policies) }
    ensures tables { current.new.tables ≡ current.old.tables }
    ensures ready { current.new.ready ≡ current.old.ready }
    ensures latest { current.new.latest ≡ current.old.latest }
    ensures closing { current.new.closing ≡ current.old.closing }
    ensures unchanged { OnErr result (current.new.policies ≡ current.old.policies) }
{
    if current.tables.stage(api.as_str(), stage.as_str()).is_none() {
        return Ok(Taken {
            reply: Reply::Refused(Refusal::NoStage),
            kept: true,
        });
    }
    let policies = &mut current.policies;
    policies.flush(alloc, api.as_str(), stage.as_str(), place)?;
    Ok(Taken {
        reply: Reply::Done,
        kept: true,
    })
}

// Carries out a command that is no Flush, at this moment. An `Err` changes nothing.
fn command<K: Keeper>(
    current: &mut Current,
    keeper: &mut K,
    alloc: Global,
    at: u64,
    command: &Command,
) -> Result<Taken, Memory>
    requires ready { AreReady current.old.tables.lists current.old.ready }
    requires fits { AreFit current.old.tables.lists at }
    requires told { IfSome (K.facts keeper.old).tables (λ lists. lists ≡ current.old.tables.lists) }
    requires nothing_staged { (K.facts keeper.old).staged ≡ [] }
    ensures reply { IfOk result (λ taken. taken.reply ≡ told (is_some (commanded current.old.tables.lists at command.now).row) (commanded current.old.tables.lists at command.now).reply taken.kept) }
    ensures lists { IfOk result (λ taken. current.new.tables.lists ≡ put_kept (commanded current.old.tables.lists at command.now).row taken.kept current.old.tables.lists) }
    ensures keeper { IfOk result (λ taken. Went (rewrites_by command.now) (commanded current.old.tables.lists at command.now).row taken.kept (K.facts keeper.old) (K.facts keeper.new)) }
    ensures ready { AreReady current.new.tables.lists current.new.ready }
    ensures latest { current.new.latest ≡ current.old.latest }
    ensures closing { current.new.closing ≡ current.old.closing }
    ensures policies { current.new.policies ≡ current.old.policies }
    ensures err { OnErr result (current.new.tables.lists ≡ current.old.tables.lists) }
    ensures stays { OnErr result (Stays (K.facts keeper.old) (K.facts keeper.new)) }
    ensures memory { OnErr result ((takes_memory (commanded current.old.tables.lists at command.now) && not (K.IN_PLACE && rewrites_by command.now)) ≡ true) }
{
    let prepared = prepare(&current.tables, &current.ready, alloc, at, command)?;
    carry_out(current, keeper, alloc, prepared)
}

// Takes a command at this place and moment. An `Err` changes nothing.
fn administer<K: Keeper>(
    current: &mut Current,
    keeper: &mut K,
    alloc: Global,
    place: u64,
    at: u64,
    asked: &Command,
) -> Result<Taken, Memory>
    requires ready { AreReady current.old.tables.lists current.old.ready }
    requires fits { AreFit current.old.tables.lists at }
    requires told { IfSome (K.facts keeper.old).tables (λ lists. lists ≡ current.old.tables.lists) }
    requires nothing_staged { (K.facts keeper.old).staged ≡ [] }
    ensures reply { IfOk result (λ taken. taken.reply ≡ told (is_some (commanded current.old.tables.lists at asked.now).row) (commanded current.old.tables.lists at asked.now).reply taken.kept) }
    ensures lists { IfOk result (λ taken. current.new.tables.lists ≡ put_kept (commanded current.old.tables.lists at asked.now).row taken.kept current.old.tables.lists) }
    ensures remembers { (happened : List Happening) → Remembers happened place current.old.policies
        → OnOk result (Remembers (happened_by (standing happened current.old) asked.now) (place + 1) current.new.policies) }
    ensures keeper { IfOk result (λ taken. Went (rewrites_by asked.now) (commanded current.old.tables.lists at asked.now).row taken.kept (K.facts keeper.old) (K.facts keeper.new)) }
    ensures ready { AreReady current.new.tables.lists current.new.ready }
    ensures latest { current.new.latest ≡ current.old.latest }
    ensures closing { current.new.closing ≡ current.old.closing }
    ensures err { OnErr result (current.new.tables.lists ≡ current.old.tables.lists) }
    ensures unchanged { OnErr result (current.new.policies ≡ current.old.policies) }
    ensures stays { OnErr result (Stays (K.facts keeper.old) (K.facts keeper.new)) }
    ensures memory { (moment : ℕ) → OnErr result (wants_memory K.IN_PLACE (admin_of moment asked.now) (commanded current.old.tables.lists at asked.now) ≡ true) }
{
    match asked {
        Command::Flush { api, stage } => flush(current, alloc, place, api, stage),
        _ => command(current, keeper, alloc, at, asked),
    }
}

/// Takes an event at this place. An `Err` changes nothing.
pub fn take<K: Keeper>(
    current: &mut Current,
    keeper: &mut K,
    alloc: Global,
    place: u64,
    event: &Event,
) -> Result<Taken, Memory>
    requires ready { AreReady current.old.tables.lists current.old.ready }
    requires fits { AreFit current.old.tables.lists current.old.latest }
    requires told { IfSome (K.facts keeper.old).tables (λ lists. lists ≡ current.old.tables.lists) }
    requires nothing_staged { (K.facts keeper.old).staged ≡ [] }
    ensures reply { (happened : List Happening) → Remembers happened place current.old.policies
        → IfOk result (λ taken. taken.reply ≡ told (is_some (row_of (standing happened current.old) event.now)) (outcome_of (standing happened current.old) place event.now).reply taken.kept) }
    ensures stands { (happened : List Happening) (seat : ℕ)
        → IfOk result (λ taken. standing (happened_behind (standing happened current.old) event.now) current.new ≡ after (standing happened current.old) (record { seat = seat; event = event.now; kept = taken.kept })) }
    ensures remembers { (happened : List Happening) → Remembers happened place current.old.policies
        → OnOk result (Remembers (happened_behind (standing happened current.old) event.now) (place + 1) current.new.policies) }
    ensures keeper { (happened : List Happening) → IfOk result (λ taken. Went (rewrites event.now) (row_of (standing happened current.old) event.now) taken.kept (K.facts keeper.old) (K.facts keeper.new)) }
    ensures ready { AreReady current.new.tables.lists current.new.ready }
    ensures err { (happened : List Happening) → OnErr result (standing happened current.new ≡ standing happened current.old) }
    ensures unchanged { OnErr result (current.new.policies ≡ current.old.policies) }
    ensures stays { OnErr result (Stays (K.facts keeper.old) (K.facts keeper.new)) }
    ensures memory { (happened : List Happening) → Remembers happened place current.old.policies
        → OnErr result (wants_memory K.IN_PLACE event.now (outcome_of (standing happened current.old) place event.now) ≡ true) }
{
    match event {
        Event::Enter {
            moment,
            word,
            api,
            stage,
        } => {
            let at = time(current, *moment);
            let entering = Entering {
                place,
                at,
                word: *word,
            };
            let reply = enter(&current.tables, &current.ready, entering, api, stage)?;
            current.latest = at;
            Ok(Taken { reply, kept: true })
        }
        Event::Recall { moment, name } => {
            let at = time(current, *moment);
            let reply = recall(&current.policies, name, at)?;
            current.latest = at;
            Ok(Taken { reply, kept: true })
        }
        Event::Learn {
            moment,
            name,
            policy,
            ttl,
        } => {
            let at = time(current, *moment);
            let learning = Learning {
                place,
                at,
                ttl: *ttl,
            };
            learn(&mut current.policies, alloc, learning, name, policy)?;
            current.latest = at;
            Ok(Taken {
                reply: Reply::Learned,
                kept: true,
            })
        }
        Event::Admit {
            moment,
            api,
            stage,
            value,
        } => {
            let at = time(current, *moment);
            let stage = (api.as_str(), stage.as_str());
            let prepared = admit(&current.tables, &current.ready, at, stage, value.as_str());
            let taken = carry_out(current, keeper, alloc, prepared)?;
            current.latest = at;
            Ok(taken)
        }
        Event::Admin { moment, command } => {
            let at = time(current, *moment);
            let taken = administer(current, keeper, alloc, place, at, command)?;
            current.latest = at;
            if let Command::Shutdown = command {
                current.closing = true;
            }
            Ok(taken)
        }
        Event::Leave { .. } => Ok(Taken {
            reply: Reply::Left {
                closing: current.closing,
            },
            kept: true,
        }),
    }
}
