// Verdicts that were found, by value and schema.
ghost use Rattle.std.specs.Prelude.{◌≡◌, IfSome};
ghost use Rattle.schema_rules.specs.Cases.{IsKnown, Says};
ghost use Rattle.schema_rules.specs.Views.{NamesPart};

use crate::case::Case;
use crate::verdict::Verdict;
use gw_base::Memory;
use std::collections::BTreeMap;

/// Verdicts by the numbers of their values and schemas.
pub type Memo = BTreeMap<(usize, usize), Verdict>;

/// The verdict, where it was found.
pub fn recall(case: &Case<'_>, memo: &Memo, value: usize, schema: usize) -> Option<Verdict>
    requires { IsKnown case.now memo.now }
    ensures says { IfSome result (λ v. Says case.now v value schema) }
    ensures part { IfSome result (λ v. NamesPart case.now.doc.now v) }
{
    memo.get(&(value, schema)).copied()
}

/// Keeps a verdict.
pub fn remember(
    case: &Case<'_>,
    memo: &mut Memo,
    value: usize,
    schema: usize,
    verdict: &Verdict,
) -> Result<(), Memory>
    requires known { IsKnown case.now memo.old }
    requires says { Says case.now verdict.now value schema }
    requires part { NamesPart case.now.doc.now verdict.now }
    ensures { IsKnown case.now memo.new }
{
    match memo.insert((value, schema), *verdict) {
        Ok(_) => Ok(()),
        Err(_) => Err(Memory),
    }
}
