// The record of a line.
ghost use Rattle.std.specs.Prelude.{◌≡◌, [], ◌∷◌, ◌++◌, length, Ok, Err, Some, drop, IfOk, option_map};
ghost use Rattle.record_fields.specs.Coding.{text_of};
ghost use Rattle.script_records.specs.Records.{text_record as text_record_of, api_record as api_record_of, post_behind as post_behind_of, post_by as post_by_fields, post_record as post_record_of, call_record as call_record_of, call_fields as call_fields_of, text_fields as text_fields_of, api_fields as api_fields_of, post_fields as post_fields_of, record_of as record_of_fields, record_in as record_in_line, numbers_of, keepfails_fields as keepfails_fields_of, keepfails_of as keepfails_of_fields, fails_in as fails_in_line};

use crate::plain::plain_post;
use crate::records::{LineFault, Reading, Record};
use crate::stages::record_of_stages;
use gw_base::{Bytes, Memory, Seq, Text, is_name};
use record_fields::{fields_in, number, small_number};
use std::alloc::Global;

// The text of a field, where it is UTF-8, without memory.
fn text_in(field: Bytes) -> Option<Text>
    ensures { result ≡ text_of field }
{
    match String::from_utf8(field.into_inner()) {
        Ok(text) => Some(Text::of(text)),
        Err(_) => None,
    }
}

#[tactic(auto, unfolding(crate::specs::Records::text_record))]
fn text_record(moment: Bytes, api: Bytes, template: Bytes) -> Reading
    ensures { result ≡ text_record_of moment api template }
{
    let Some(moment) = number(moment.as_slice()) else {
        return Err(LineFault::BadRecord);
    };
    let Some(api) = text_in(api) else {
        return Err(LineFault::BadRecord);
    };
    let Some(template) = text_in(template) else {
        return Err(LineFault::BadRecord);
    };
    Ok(Record::PutText {
        moment,
        api,
        template,
    })
}

#[tactic(auto, unfolding(crate::specs::Records::api_record))]
fn api_record(moment: Bytes, api: Bytes, document: Bytes) -> Reading
    ensures { result ≡ api_record_of moment api document }
{
    let Some(moment) = number(moment.as_slice()) else {
        return Err(LineFault::BadRecord);
    };
    let Some(api) = text_in(api) else {
        return Err(LineFault::BadRecord);
    };
    let Some(document) = text_in(document) else {
        return Err(LineFault::BadRecord);
    };
    Ok(Record::PutDocument {
        moment,
        api,
        document,
    })
}

#[tactic(auto, unfolding(crate::specs::Records::post_behind))]
fn post_of(moment: u64, word: u64, api: Bytes, stage: Bytes, body: Bytes) -> Reading
    ensures { result ≡ post_behind_of moment word api stage body }
{
    let Some(api) = text_in(api) else {
        return Err(LineFault::BadRecord);
    };
    let Some(stage) = text_in(stage) else {
        return Err(LineFault::BadRecord);
    };
    let Some(body) = text_in(body) else {
        return Err(LineFault::BadRecord);
    };
    if !(is_name(api.as_str()) && is_name(stage.as_str())) {
        return Err(LineFault::BadRecord);
    }
    Ok(Record::Post {
        moment,
        word,
        api,
        stage,
        body,
    })
}

#[tactic(auto, unfolding(crate::specs::Records::post_record))]
fn post_record(moment: Bytes, word: Bytes, api: Bytes, stage: Bytes, body: Bytes) -> Reading
    ensures { result ≡ post_record_of moment word api stage body }
{
    let Some(moment) = number(moment.as_slice()) else {
        return Err(LineFault::BadRecord);
    };
    let Some(word) = number(word.as_slice()) else {
        return Err(LineFault::BadRecord);
    };
    post_of(moment, word, api, stage, body)
}

#[tactic(auto, unfolding(crate::specs::Records::call_record))]
fn call_record(moment: Bytes, word: Bytes, bytes: Bytes, outcomes: Vec<Bytes>) -> Reading
    ensures { result ≡ call_record_of moment word bytes outcomes.items }
{
    let Some(moment) = number(moment.as_slice()) else {
        return Err(LineFault::BadRecord);
    };
    let Some(word) = number(word.as_slice()) else {
        return Err(LineFault::BadRecord);
    };
    Ok(Record::Call {
        moment,
        word,
        bytes,
        outcomes: Seq::of(outcomes),
    })
}

// Each of these is given all fields of a line, the first of which is the record's name.

fn text_fields(mut fields: Vec<Bytes>) -> Reading
    ensures { result ≡ text_fields_of (drop 1 fields.items) }
{
    let [_, _, _, _] = fields.as_slice() else {
        return Err(LineFault::BadRecord);
    };
    let template = fields.remove(3);
    let api = fields.remove(2);
    let moment = fields.remove(1);
    text_record(moment, api, template)
}

fn api_fields(mut fields: Vec<Bytes>) -> Reading
    ensures { result ≡ api_fields_of (drop 1 fields.items) }
{
    let [_, _, _, _] = fields.as_slice() else {
        return Err(LineFault::BadRecord);
    };
    let document = fields.remove(3);
    let api = fields.remove(2);
    let moment = fields.remove(1);
    api_record(moment, api, document)
}

fn post_fields(mut fields: Vec<Bytes>) -> Reading
    ensures { result ≡ post_fields_of (drop 1 fields.items) }
{
    let [_, _, _, _, _, _] = fields.as_slice() else {
        return Err(LineFault::BadRecord);
    };
    let body = fields.remove(5);
    let stage = fields.remove(4);
    let api = fields.remove(3);
    post_behind(fields, api, stage, body)
}

// A `post` of these texts, behind its name, its moment and its word.
fn post_behind(mut fields: Vec<Bytes>, api: Bytes, stage: Bytes, body: Bytes) -> Reading
    requires { length fields.items ≡ 3 }
    ensures { result ≡ post_fields_of (drop 1 (fields.items ++ api ∷ stage ∷ body ∷ [])) }
{
    let [_, _, _] = fields.as_slice() else {
        unreachable!()
    };
    let word = fields.remove(2);
    let moment = fields.remove(1);
    post_record(moment, word, api, stage, body)
}

fn call_fields(mut fields: Vec<Bytes>) -> Result<Reading, Memory>
    ensures { IfOk result (λ r. r ≡ call_fields_of (drop 1 fields.items)) }
{
    let [_, _, _, _, ..] = fields.as_slice() else {
        return Ok(Err(LineFault::BadRecord));
    };
    let outcomes = fields.split_off(4)?;
    let bytes = fields.remove(3);
    let word = fields.remove(2);
    let moment = fields.remove(1);
    Ok(call_record(moment, word, bytes, outcomes))
}

#[tactic(auto, unfolding(crate::specs::Records::record_of))]
fn record_of(alloc: Global, fields: Vec<Bytes>) -> Result<Reading, Memory>
    ensures { IfOk result (λ r. r ≡ record_of_fields fields.items) }
{
    let [name, rest @ ..] = fields.as_slice() else {
        return Ok(Err(LineFault::BadRecord));
    };
    let name = name.as_slice();
    if name == b"text".as_slice() {
        return Ok(text_fields(fields));
    }
    if name == b"api".as_slice() {
        return Ok(api_fields(fields));
    }
    if name == b"post".as_slice() {
        return Ok(post_fields(fields));
    }
    if name == b"call".as_slice() {
        return call_fields(fields);
    }
    record_of_stages(alloc, name, rest)
}

// A post of these numbers, whose other fields are given.
fn post_by(moment: u64, word: u64, mut fields: Vec<Bytes>) -> Reading
    ensures { result ≡ post_by_fields moment word (Some fields.items) }
{
    let [_, _, _] = fields.as_slice() else {
        return Err(LineFault::BadRecord);
    };
    let body = fields.remove(2);
    let stage = fields.remove(1);
    let api = fields.remove(0);
    post_of(moment, word, api, stage, body)
}

/// The record of a line, or why it has none.
pub fn record_in(alloc: Global, line: &[u8]) -> Result<Reading, Memory>
    ensures { IfOk result (λ r. r ≡ record_in_line line.now) }
{
    if let Some(post) = plain_post(line) {
        return match fields_in(alloc, post.fields)? {
            Some(fields) => Ok(post_by(post.moment, post.word, fields)),
            None => Ok(Err(LineFault::BadRecord)),
        };
    }
    match fields_in(alloc, line)? {
        Some(fields) => record_of(alloc, fields),
        None => Ok(Err(LineFault::BadRecord)),
    }
}

fn numbers_in(alloc: Global, fields: &[Bytes]) -> Result<Option<Vec<u32>>, Memory>
    ensures { IfOk result (λ read. option_map (λ numbers. numbers.items) read ≡ numbers_of fields.now) }
{
    let mut numbers = Vec::new(alloc);
    for field in fields {
        let Some(number) = small_number(field.as_slice()) else {
            return Ok(None);
        };
        numbers.push(number)?;
    }
    Ok(Some(numbers))
}

fn keepfails_fields(alloc: Global, fields: &[Bytes]) -> Result<Option<Vec<u32>>, Memory>
    ensures { IfOk result (λ read. option_map (λ numbers. numbers.items) read ≡ keepfails_fields_of fields.now) }
{
    match fields {
        [] => Ok(None),
        [_, ..] => numbers_in(alloc, fields),
    }
}

#[tactic(auto, unfolding(crate::specs::Records::keepfails_of))]
fn keepfails_of(alloc: Global, fields: &[Bytes]) -> Result<Option<Vec<u32>>, Memory>
    ensures { IfOk result (λ read. option_map (λ numbers. numbers.items) read ≡ keepfails_of_fields fields.now) }
{
    let [name, rest @ ..] = fields else {
        return Ok(None);
    };
    if name.as_slice() == b"keepfails".as_slice() {
        keepfails_fields(alloc, rest)
    } else {
        Ok(None)
    }
}

/// The numbers of the keeper's calls that a line tells to fail, where it is a `keepfails`.
pub fn fails_in(alloc: Global, line: &[u8]) -> Result<Option<Vec<u32>>, Memory>
    ensures { IfOk result (λ read. option_map (λ numbers. numbers.items) read ≡ fails_in_line line.now) }
{
    match fields_in(alloc, line)? {
        Some(fields) => keepfails_of(alloc, &fields),
        None => Ok(None),
    }
}
