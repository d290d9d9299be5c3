// Validators.
ghost use Rattle.std.specs.Prelude.{◌≡◌};
ghost use Rattle.json_subset.specs.Documents.{IsPart, part};
ghost use Rattle.api_parts.specs.Reading.{Reads, ReadsAs};
ghost use Rattle.api_members.specs.Validators.{validator_in, validator_member, validators_in, validators_member};

use api_parts::{ApiFault, Validator, below, no_memory};
use api_reading::values::{copy, flag, member_at, object, unknown_member};
use gw_base::{Seq, Text, is_name};
use json_subset::{Doc, NodeId};
use std::alloc::Global;

fn add_check(
    alloc: Global,
    doc: &Doc,
    read: &mut Validator,
    name: &str,
    id: NodeId,
) -> Result<(), ApiFault>
    requires { IsPart doc.now id }
    ensures { ReadsAs (λ (_ : Unit {0}). read.new) (validator_member read.old name.now (part doc.now id)) result }
{
    if name == "body" {
        read.body = flag(alloc, doc, name, id)?;
        return Ok(());
    }
    if name == "parameters" {
        read.parameters = flag(alloc, doc, name, id)?;
        return Ok(());
    }
    Err(unknown_member(alloc, name))
}

fn read_validator(alloc: Global, doc: &Doc, name: &str, id: NodeId) -> Result<Validator, ApiFault>
    requires { IsPart doc.now id }
    ensures { Reads (validator_in name.now (part doc.now id)) result }
{
    let mut read = Validator {
        body: false,
        parameters: false,
    };
    let count = object(alloc, doc, name, id)?;
    for i in 0..count {
        let (member, value) = member_at(doc, id, i);
        if let Err(fault) = add_check(alloc, doc, &mut read, member, value) {
            return Err(below(alloc, member, fault));
        }
    }
    Ok(read)
}

fn add_validator(
    alloc: Global,
    doc: &Doc,
    read: &mut Seq<(Text, Validator)>,
    name: &str,
    id: NodeId,
) -> Result<(), ApiFault>
    requires { IsPart doc.now id }
    ensures { ReadsAs (λ (_ : Unit {0}). read.new) (validators_member read.old name.now (part doc.now id)) result }
{
    if !is_name(name) {
        return Err(unknown_member(alloc, name));
    }
    let validator = read_validator(alloc, doc, name, id)?;
    let name = copy(alloc, name)?;
    match read.push((name, validator)) {
        Ok(()) => Ok(()),
        Err(_) => Err(no_memory(alloc)),
    }
}

/// The validators, by their names.
pub fn read_validators(
    alloc: Global,
    doc: &Doc,
    name: &str,
    id: NodeId,
) -> Result<Seq<(Text, Validator)>, ApiFault>
    requires { IsPart doc.now id }
    ensures { Reads (validators_in name.now (part doc.now id)) result }
{
    let mut read = Seq::new(alloc);
    let count = object(alloc, doc, name, id)?;
    for i in 0..count {
        let (member, value) = member_at(doc, id, i);
        if let Err(fault) = add_validator(alloc, doc, &mut read, member, value) {
            return Err(below(alloc, member, fault));
        }
    }
    Ok(read)
}
