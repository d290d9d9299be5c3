// Response rules.
ghost use Rattle.std.specs.Prelude.{◌≡◌, MatchResult};
ghost use Rattle.std.specs.Fmt.{decimal};
ghost use Rattle.json_subset.specs.Documents.{IsPart, part};
ghost use Rattle.api_parts.specs.Reading.{Reads, ReadsAs};
ghost use Rattle.api_resources.specs.Rules as says;

use crate::mapped::{MappingsRead, Side, read_mappings};
use api_parts::{ApiCause, ApiFault, Mapping, ResponseRule, below, no_memory};
use api_reading::values::{
    fault_here, item_at, list, member_at, missing_member, number, object, unknown_member,
};
use api_reading::{defer, pattern, read_templates};
use gw_base::{Seq, Shared, Text};
use json_subset::{Doc, NodeId};
use status_table::{StatusTable, StatusTables};
use std::alloc::Global;
use vtl_reader::Template;

/// What is read of a rule so far.
#[derive(Drop)]
pub struct RuleRead {
    pub pattern: Option<Shared<StatusTable>>,
    pub status: Option<u16>,
    pub parameters: Seq<Mapping>,
    pub templates: Seq<(Text, Template)>,
    pub waiting: Option<ApiFault>,
}

/// The rules that are read, whether one of them has no pattern, and the first fault of theirs that waits.
#[derive(Drop)]
pub struct RulesRead {
    pub list: Seq<ResponseRule>,
    pub has_default: bool,
    pub waiting: Option<ApiFault>,
}

fn add_member(
    alloc: Global,
    doc: &Doc,
    tables: &mut StatusTables,
    read: &mut RuleRead,
    name: &str,
    id: NodeId,
) -> Result<(), ApiFault>
    requires { IsPart doc.now id }
    ensures { ReadsAs (λ (_ : Unit {0}). read.new) (says.rule_member read.old name.now (part doc.now id)) result }
{
    if name == "pattern" {
        read.pattern = Some(pattern(alloc, doc, tables, name, id)?);
        return Ok(());
    }
    if name == "status" {
        let status = number(alloc, doc, 200, 599, name, id)?;
        read.status = Some(status as u16);
        return Ok(());
    }
    if name == "parameters" {
        return add_mappings(alloc, doc, read, name, id);
    }
    if name == "templates" {
        read.templates = read_templates(alloc, doc, name, id)?;
        return Ok(());
    }
    Err(unknown_member(alloc, name))
}

fn add_mappings(
    alloc: Global,
    doc: &Doc,
    read: &mut RuleRead,
    name: &str,
    id: NodeId,
) -> Result<(), ApiFault>
    requires { IsPart doc.now id }
    ensures { ReadsAs (λ (_ : Unit {0}). read.new) (says.rule_mappings read.old name.now (part doc.now id)) result }
{
    let MappingsRead { list, waiting } = read_mappings(alloc, doc, Side::Response, "", name, id)?;
    defer(alloc, &mut read.waiting, name, waiting)?;
    read.parameters = list;
    Ok(())
}

fn rule_of(alloc: Global, read: RuleRead) -> Result<(ResponseRule, Option<ApiFault>), ApiFault>
    ensures { Reads (says.rule_of read) result }
{
    let RuleRead {
        pattern,
        status,
        parameters,
        templates,
        waiting,
    } = read;
    match status {
        Some(status) => Ok((
            ResponseRule {
                pattern,
                status,
                parameters,
                templates,
            },
            waiting,
        )),
        None => Err(missing_member(alloc, "status")),
    }
}

fn read_rule(
    alloc: Global,
    doc: &Doc,
    tables: &mut StatusTables,
    name: &str,
    id: NodeId,
) -> Result<(ResponseRule, Option<ApiFault>), ApiFault>
    requires { IsPart doc.now id }
    ensures { Reads (says.rule_in name.now (part doc.now id)) result }
{
    let mut read = RuleRead {
        pattern: None,
        status: None,
        parameters: Seq::new(alloc),
        templates: Seq::new(alloc),
        waiting: None,
    };
    let count = object(alloc, doc, name, id)?;
    for i in 0..count {
        let (member, value) = member_at(doc, id, i);
        if let Err(fault) = add_member(alloc, doc, tables, &mut read, member, value) {
            return Err(below(alloc, member, fault));
        }
    }
    rule_of(alloc, read)
}

fn with_rule(
    alloc: Global,
    all: &mut RulesRead,
    name: &str,
    rule: ResponseRule,
    fault: Option<ApiFault>,
) -> Result<(), ApiFault>
    ensures { ReadsAs (λ (_ : Unit {0}). all.new) (says.with_rule all.old name.now (rule, fault)) result }
{
    let is_default = rule.pattern.is_none();
    if is_default && all.has_default {
        return Err(fault_here(alloc, ApiCause::TwoDefaults));
    }
    defer(alloc, &mut all.waiting, name, fault)?;
    if is_default {
        all.has_default = true;
    }
    match all.list.push(rule) {
        Ok(()) => Ok(()),
        Err(_) => Err(no_memory(alloc)),
    }
}

fn add_rule(
    alloc: Global,
    doc: &Doc,
    tables: &mut StatusTables,
    all: &mut RulesRead,
    name: &str,
    id: NodeId,
) -> Result<(), ApiFault>
    requires { IsPart doc.now id }
    ensures { ReadsAs (λ (_ : Unit {0}). all.new) (says.rules_member all.old name.now (part doc.now id)) result }
{
    let (rule, fault) = read_rule(alloc, doc, tables, name, id)?;
    with_rule(alloc, all, name, rule, fault)
}

// The name of an item: its number.
fn item_name(alloc: Global, i: u32) -> Result<Text, ApiFault>
    ensures { MatchResult result (λ name. name ≡ decimal i) (λ e. e.cause ≡ ApiCause.Memory) }
{
    match format!(in alloc; "{i}") {
        Ok(text) => Ok(Text::of(text)),
        Err(_) => Err(no_memory(alloc)),
    }
}

/// The rules, in their order.
pub fn read_rules(
    alloc: Global,
    doc: &Doc,
    tables: &mut StatusTables,
    name: &str,
    id: NodeId,
) -> Result<RulesRead, ApiFault>
    requires { IsPart doc.now id }
    ensures { Reads (says.rules_in name.now (part doc.now id)) result }
{
    let mut read = RulesRead {
        list: Seq::new(alloc),
        has_default: false,
        waiting: None,
    };
    let count = list(alloc, doc, name, id)?;
    for i in 0..count {
        let value = item_at(doc, id, i);
        let item = item_name(alloc, i)?;
        if let Err(fault) = add_rule(alloc, doc, tables, &mut read, item.as_str(), value) {
            return Err(below(alloc, item.as_str(), fault));
        }
    }
    Ok(read)
}
