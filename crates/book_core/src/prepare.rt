// What a command comes to, before the keeper is asked.
ghost use Rattle.std.specs.Prelude.{◌≡◌, false, true, OnErr, IfOk};
ghost use Rattle.book_rules.specs.Commands.{commanded};
ghost use Rattle.book_rules.specs.Fits.{AreFit};
ghost use Rattle.book_rules.specs.History.{rewrites_by};
ghost use Rattle.book_rules.specs.Machine.{takes_memory};
ghost use Rattle.book_opening.specs.Ready.{AreReady};
ghost use Rattle.book_core.specs.Changes.{IsMeant, IsPrepared};

use crate::changes::Prepared;
use crate::plan_changes::{grant, join_key, put_key, put_plan, show_usage};
use crate::stage_changes::{deploy, promote, put_api, put_canary, put_stage, show_flush};
use book_opening::Ready;
use book_rules::{Command, Reply};
use gw_base::Memory;
use keeper_core::Tables;
use std::alloc::Global;

/// What a command comes to at this moment. An `Err` comes of no command that is refused, and of none that writes no row.
pub fn prepare(
    tables: &Tables,
    ready: &Ready,
    alloc: Global,
    t: u64,
    command: &Command,
) -> Result<Prepared, Memory>
    requires ready { AreReady tables.now.lists ready.now }
    requires fits { AreFit tables.now.lists t }
    ensures prepared { IfOk result (IsPrepared tables.now.lists (commanded tables.now.lists t command.now)) }
    ensures meant { IfOk result (IsMeant (rewrites_by command.now)) }
    ensures memory { OnErr result ((takes_memory (commanded tables.now.lists t command.now) ≡ true) × (rewrites_by command.now ≡ false)) }
{
    match command {
        Command::PutApi { api, definition } => put_api(tables, alloc, api, definition),
        Command::Deploy { api } => deploy(tables, ready, alloc, api),
        Command::PutStage {
            api,
            stage,
            deployment,
            variables,
        } => put_stage(tables, ready, alloc, api, stage, *deployment, variables),
        Command::PutCanary {
            api,
            stage,
            deployment,
            share,
            variables,
        } => put_canary(
            tables,
            ready,
            alloc,
            (api, stage),
            *deployment,
            *share,
            variables,
        ),
        Command::PromoteCanary { api, stage } => promote(tables, ready, alloc, api, stage),
        Command::PutKey {
            key,
            value,
            enabled,
        } => put_key(tables, ready, alloc, key, value, *enabled),
        Command::PutPlan {
            plan,
            throttle,
            quota,
            stages,
        } => put_plan(
            tables,
            ready,
            alloc,
            plan,
            *throttle,
            *quota,
            stages.as_slice(),
        ),
        Command::JoinKey { plan, key } => join_key(tables, ready, alloc, t, plan, key),
        Command::Grant { plan, key, amount } => Ok(grant(tables, t, plan, key, *amount)),
        Command::Flush { api, stage } => Ok(Prepared::Says(show_flush(tables, api, stage))),
        Command::Usage { plan, key } => Ok(Prepared::Says(show_usage(tables, t, plan, key))),
        Command::Shutdown => Ok(Prepared::Says(Reply::Done)),
    }
}
