// Patterns and templates.
ghost use Rattle.std.specs.Prelude.{◌≡◌, ◌⊎◌, MatchResult, Ok, Err};
ghost use Rattle.json_subset.specs.Documents.{IsPart, part};
ghost use Rattle.pattern_core.specs.Search.{anchored as anchored_of};
ghost use Rattle.api_parts.specs.Reading.{Reads};
ghost use Rattle.api_reading.specs.Texts as says;

use crate::values::{bad_member, copy, fault_here, member_at, object, text};
use api_parts::{ApiCause, ApiFault, below, no_memory};
use gw_base::{Seq, Shared, Text};
use json_subset::{Doc, NodeId};
use pattern_core::{Pattern, PatternFault};
use status_table::{StatusTable, StatusTables, anchored};
use std::alloc::Global;
use vtl_grammar::TemplateFault;
use vtl_reader::Template;

/// The most bytes of a pattern.
const PATTERN_LIMIT: usize = 1024;

/// The table of a pattern that a member states, among the tables of the document so far.
pub fn pattern(
    alloc: Global,
    doc: &Doc,
    tables: &mut StatusTables,
    name: &str,
    id: NodeId,
) -> Result<Shared<StatusTable>, ApiFault>
    requires { IsPart doc.now id }
    ensures { Reads (says.pattern_in name.now (part doc.now id)) result }
{
    let text = text(alloc, doc, name, id)?;
    if text.len() > PATTERN_LIMIT {
        return Err(bad_member(alloc, name));
    }
    match tables.table(alloc, text.as_str()) {
        Ok(table) => Ok(table),
        Err(PatternFault::BadPattern) => Err(fault_here(alloc, ApiCause::BadPattern)),
        Err(PatternFault::Memory) => Err(no_memory(alloc)),
    }
}

/// The same of a pattern of whole tokens: its text, and it compiled as `^(?:P)$`.
pub fn token_pattern(
    alloc: Global,
    doc: &Doc,
    name: &str,
    id: NodeId,
) -> Result<(Text, Pattern), ApiFault>
    requires { IsPart doc.now id }
    ensures { MatchResult result (λ p. (says.pattern_in name.now (part doc.now id) ≡ Ok p.0) × (p.1 ≡ anchored_of p.0)) (λ e. (e.cause ≡ ApiCause.Memory) ⊎ (says.pattern_in name.now (part doc.now id) ≡ Err e)) }
{
    let text = text(alloc, doc, name, id)?;
    if text.len() > PATTERN_LIMIT {
        return Err(bad_member(alloc, name));
    }
    match anchored(alloc, text.as_str()) {
        Ok(whole) => Ok((text, whole)),
        Err(PatternFault::BadPattern) => Err(fault_here(alloc, ApiCause::BadPattern)),
        Err(PatternFault::Memory) => Err(no_memory(alloc)),
    }
}

/// A text that is read as a template.
#[tactic(auto, unfolding(crate::specs::Texts::template_of), using(crate::proofs::Templates::template_ok))]
pub fn read_template(alloc: Global, text: &str) -> Result<Template, ApiFault>
    ensures { Reads (says.template_of text.now) result }
{
    match Template::read(alloc, text) {
        Ok(template) => Ok(template),
        Err(TemplateFault::Memory) => Err(no_memory(alloc)),
        Err(fault) => Err(fault_here(alloc, ApiCause::Template(fault))),
    }
}

fn add_template(
    alloc: Global,
    doc: &Doc,
    read: Seq<(Text, Template)>,
    name: &str,
    id: NodeId,
) -> Result<Seq<(Text, Template)>, ApiFault>
    requires { IsPart doc.now id }
    ensures { Reads (says.templates_member read name.now (part doc.now id)) result }
{
    let source = text(alloc, doc, name, id)?;
    let template = read_template(alloc, source.as_str())?;
    let name = copy(alloc, name)?;
    let mut read = read;
    match read.push((name, template)) {
        Ok(()) => Ok(read),
        Err(_) => Err(no_memory(alloc)),
    }
}

/// The templates, by their media types.
pub fn read_templates(
    alloc: Global,
    doc: &Doc,
    name: &str,
    id: NodeId,
) -> Result<Seq<(Text, Template)>, ApiFault>
    requires { IsPart doc.now id }
    ensures { Reads (says.templates_in name.now (part doc.now id)) result }
{
    let mut read = Seq::new(alloc);
    let count = object(alloc, doc, name, id)?;
    for i in 0..count {
        let (member, value) = member_at(doc, id, i);
        read = match add_template(alloc, doc, read, member, value) {
            Ok(read) => read,
            Err(fault) => return Err(below(alloc, member, fault)),
        };
    }
    Ok(read)
}
