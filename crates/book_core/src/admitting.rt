// A call that asks to be admitted by the value of a key.
ghost use Rattle.std.specs.Prelude.{◌≡◌, ◌<◌, true, length};
ghost use Rattle.gw_base.specs.Names.{is_name as is_name_of};
ghost use Rattle.keeper_core.specs.Joins.{join_at};
ghost use Rattle.usage_plans.specs.Rows.{tally_in, terms_in};
ghost use Rattle.usage_plans.specs.Tallies.{admission_of};
ghost use Rattle.book_rules.specs.Admissions.{admitted as admitted_of, admitted_under as admitted_under_of, decided};
ghost use Rattle.book_rules.specs.Fits.{AreFit, IsFitJoin, IsFitPlan};
ghost use Rattle.book_opening.specs.Ready.{AreReady};
ghost use Rattle.book_core.specs.Changes.{IsMeant, IsPrepared};

use crate::changes::Prepared;
use crate::finds::find_key;
use crate::plans::plan_for;
use book_opening::Ready;
use book_rules::Reply;
use gw_base::{Name, Text};
use keeper_core::{PlanRow, Tables};
use usage_plans::{Admission, numbers_of, tally_of, terms_of};

// A name in place.
fn name_of(text: &Text) -> Name
    requires { is_name_of text.now ≡ true }
    ensures { result ≡ text.now }
{
    Name::of(text.as_str())
}

// What a call comes to by the row of the plan and the join at this place.
fn decide(tables: &Tables, t: u64, key: &Text, plan: &PlanRow, at: usize) -> Prepared
    requires early { t < 4102444800000 }
    requires name { is_name_of key.now ≡ true }
    requires plan { IsFitPlan plan.now }
    requires inside { at < length tables.now.lists.joins }
    requires join { IsFitJoin plan.now (join_at tables.now.lists at) t }
    ensures prepared { IsPrepared tables.now.lists (decided key.now plan.now (join_at tables.now.lists at) (admission_of (terms_in plan.now) (tally_in (join_at tables.now.lists at)) t)) result }
    ensures meant { IsMeant true result }
{
    match tally_of(tables.join_at(at)).admit(terms_of(plan), t) {
        Admission::Admitted(tally) => Prepared::Rewrites(
            at,
            numbers_of(tally),
            Reply::Admitted {
                key: name_of(key),
                plan: name_of(&plan.plan),
            },
        ),
        Admission::Throttled { level } => Prepared::Says(Reply::Throttled { level }),
        Admission::QuotaExceeded { allowance, used } => Prepared::Says(Reply::QuotaExceeded {
            allowance,
            used,
        }),
    }
}

// What a call of this key comes to by the plan of this name.
fn admit_under(tables: &Tables, t: u64, key: &Text, plan: &Text) -> Prepared
    requires fits { AreFit tables.now.lists t }
    requires name { is_name_of key.now ≡ true }
    ensures prepared { IsPrepared tables.now.lists (admitted_under_of tables.now.lists t key.now (Some plan.now)) result }
    ensures meant { IsMeant true result }
{
    let (Some(of), Some(at)) = (
        tables.plan(plan.as_str()),
        tables.find_join(plan.as_str(), key.as_str()),
    ) else {
        return Prepared::Says(Reply::InvalidKey);
    };
    decide(tables, t, key, of, at)
}

/// What a call of this stage comes to, with this value of a key. It takes no memory.
pub fn admit(tables: &Tables, ready: &Ready, t: u64, stage: (&str, &str), value: &str) -> Prepared
    requires ready { AreReady tables.now.lists ready.now }
    requires fits { AreFit tables.now.lists t }
    ensures prepared { IsPrepared tables.now.lists (admitted_of tables.now.lists t (stage.entry.0.now, stage.entry.1.now) value.now) result }
    ensures meant { IsMeant true result }
{
    let Some(row) = find_key(tables, ready, value) else {
        return Prepared::Says(Reply::InvalidKey);
    };
    if row.enabled != 1 {
        return Prepared::Says(Reply::InvalidKey);
    }
    match plan_for(tables, ready, stage, row.key.as_str()) {
        Some(plan) => admit_under(tables, t, &row.key, plan),
        None => Prepared::Says(Reply::InvalidKey),
    }
}
