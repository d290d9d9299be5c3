// The table `stages`.
ghost use Rattle.std.specs.Prelude.{◌≡◌, reverse, map, None, Some, IfOk, OnOk, IfErr, if◌then◌else◌};
ghost use Rattle.std.specs.Option.{option_map};
ghost use Rattle.std.specs.List.{list_any};
ghost use Rattle.std.specs.Str.{bytes_eq};
ghost use Rattle.record_fields.specs.Columns.{column_pairs};
ghost use Rattle.book_rules.specs.Good.{refused_by, names_differ as names_differ_of, are_stage_variables as are_stage_variables_of, takes_canary as takes_canary_of, is_vars_column as is_vars_column_of, takes_stage};
ghost use Rattle.book_rules.specs.Names.{is_variable as is_variable_of, are_variables as are_variables_of};
ghost use Rattle.book_rules.specs.Stored.{variables_in};
ghost use Rattle.book_opening.specs.Faults.{IsFirstIn};
ghost use Rattle.book_opening.specs.Ready.{canary_of as canary_of_row, if_taken, standing_of};

use crate::deployments::is_deployed;
use crate::fault::OpenFault;
use crate::ready::{Canary, Standing};
use call_facts::Vars;
use gw_base::{Memory, Seq, Shared, Text, is_name};
use keeper_core::{StageRow, Table, Tables};
use record_fields::read_column;
use stage_canary::{WHOLE_SHARE, merged};
use std::alloc::Global;

/// The most stages, and the most variables of one.
const MOST_STAGES: usize = 1024;

const MOST_VARIABLES: usize = 64;

/// The most bytes of a variable's value.
const MOST_VALUE: usize = 2048;

fn is_variable(pair: &(Text, Text)) -> bool
    ensures { result ≡ is_variable_of pair.now }
{
    let value = pair.1.as_str();
    is_name(pair.0.as_str()) && value.len() <= MOST_VALUE
}

fn are_variables(pairs: &[(Text, Text)]) -> bool
    ensures { result ≡ are_variables_of pairs.now }
{
    pairs.iter().all(is_variable)
}

fn is_named(pairs: &[(Text, Text)], name: &str) -> bool
    ensures { result ≡ list_any (λ other. bytes_eq other.0 name.now) pairs.now }
{
    pairs.iter().any(|other| other.0.as_str() == name)
}

fn names_differ(pairs: &[(Text, Text)]) -> bool
    ensures { result ≡ names_differ_of pairs.now }
{
    for (i, pair) in pairs.iter().enumerate() {
        if is_named(&pairs[i + 1..], pair.0.as_str()) {
            return false;
        }
    }
    true
}

// Whether the pairs are variables that a stage may have.
#[tactic(auto, unfolding(book_rules::specs::Limits::most_variables))]
fn are_stage_variables(pairs: &[(Text, Text)]) -> bool
    ensures { result ≡ are_stage_variables_of (Some pairs.now) }
{
    pairs.len() <= MOST_VARIABLES && are_variables(pairs) && names_differ(pairs)
}

// Whether a column has variables that a stage may have.
fn is_vars_column(alloc: Global, column: &str) -> Result<bool, Memory>
    ensures { IfOk result (λ taken. taken ≡ is_vars_column_of column.now) }
{
    match read_column(alloc, column)? {
        Some(pairs) => Ok(are_stage_variables(&pairs)),
        None => Ok(false),
    }
}

// The number of a stage's canary, where it is taken; 0 where there is none, of which nothing is said then.
fn read_canary(alloc: Global, tables: &Tables, row: &StageRow) -> Result<Option<u32>, Memory>
    ensures { IfOk result (λ number. number ≡ if_taken (takes_canary_of tables.now.lists row.now) row.now.canary) }
{
    if row.canary == 0 {
        let is_said = row.share != 0 || !row.canary_vars.is_empty();
        return Ok(if is_said { None } else { Some(0) });
    }
    if !is_deployed(tables, row.api.as_str(), row.canary) || row.share > WHOLE_SHARE {
        return Ok(None);
    }
    if is_vars_column(alloc, row.canary_vars.as_str())? {
        Ok(Some(row.canary as u32))
    } else {
        Ok(None)
    }
}

// The variables of a column; none where it has not their form.
#[tactic(auto, unfolding(book_rules::specs::Stored::variables_in))]
fn variables_of(alloc: Global, column: &str) -> Result<Vars, Memory>
    ensures { IfOk result (λ variables. variables ≡ variables_in column.now) }
{
    let pairs = match read_column(alloc, column)? {
        Some(pairs) => pairs,
        None => Vec::new(alloc),
    };
    Ok(Vars {
        pairs: Seq::of(pairs),
    })
}

// The canary of a row, whose number is this.
fn canary_of(
    alloc: Global,
    row: &StageRow,
    number: u32,
    variables: &Vars,
) -> Result<Option<Canary>, Memory>
    requires number { number ≡ row.now.canary }
    requires variables { variables.now ≡ variables_in row.now.vars }
    ensures { IfOk result (λ canary. canary ≡ canary_of_row row.now) }
{
    if number == 0 {
        return Ok(None);
    }
    let own = variables_of(alloc, row.canary_vars.as_str())?;
    let merged = merged(alloc, variables, &own)?;
    Ok(Some(Canary {
        deployment: number,
        share: row.share,
        variables: Shared::new(alloc, merged)?,
    }))
}

/// What the row of a stage stands for, whose numbers of deployments are these.
pub fn read_standing(
    alloc: Global,
    row: &StageRow,
    deployment: u32,
    canary: u32,
) -> Result<Standing, Memory>
    requires deployment { deployment ≡ row.now.deployment }
    requires canary { canary ≡ row.now.canary }
    ensures { IfOk result (λ standing. standing ≡ standing_of row.now) }
{
    let variables = variables_of(alloc, row.vars.as_str())?;
    let canary = canary_of(alloc, row, canary, &variables)?;
    Ok(Standing {
        deployment,
        variables: Shared::new(alloc, variables)?,
        canary,
    })
}

// What a row stands for, where the row is taken.
#[tactic(auto, unfolding(book_rules::specs::Limits::most_stages))]
fn read_stage(
    alloc: Global,
    tables: &Tables,
    before: &[StageRow],
    row: &StageRow,
) -> Result<Option<Standing>, Memory>
    ensures { IfOk result (λ standing. standing ≡ if_taken (takes_stage tables.now.lists (reverse before.now) row.now) (standing_of row.now)) }
{
    if before.len() >= MOST_STAGES
        || !is_name(row.stage.as_str())
        || !is_deployed(tables, row.api.as_str(), row.deployment)
        || !is_vars_column(alloc, row.vars.as_str())?
    {
        return Ok(None);
    }
    let Some(canary) = read_canary(alloc, tables, row)? else {
        return Ok(None);
    };
    let standing = read_standing(alloc, row, row.deployment as u32, canary)?;
    Ok(Some(standing))
}

/// Tests the stages, and reads their variables.
pub(crate) fn open_stages(alloc: Global, tables: &Tables) -> Result<Vec<Standing>, OpenFault>
    ensures taken { OnOk result (refused_by (takes_stage tables.now.lists) tables.now.lists.stages ≡ None) }
    ensures read { IfOk result (λ stages. stages.items ≡ map standing_of tables.now.lists.stages) }
    ensures refused { IfErr result (IsFirstIn Table.Stages (refused_by (takes_stage tables.now.lists) tables.now.lists.stages)) }
{
    let rows = tables.stages();
    let mut stages = Vec::new(alloc);
    for (i, row) in rows.iter().enumerate() {
        let Some(stage) = read_stage(alloc, tables, &rows[..i], row)? else {
            return Err(OpenFault::BadRow(Table::Stages, i as u64));
        };
        stages.push(stage)?;
    }
    Ok(stages)
}
