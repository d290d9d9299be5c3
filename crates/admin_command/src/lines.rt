// What a line of commands asks for.
ghost use Rattle.std.specs.Prelude.{◌≡◌, IfOk};
ghost use Rattle.admin_command.specs.Lines.{put_by, asked_by as asked_by_record, asked_in as asked_in_line};

use crate::orders::Order;
use api_model::Api;
use book_rules::Command;
use gw_base::{Memory, Shared, Text};
use script_records::{LineFault, Record, record_in, take_document, take_text};
use std::alloc::Global;

/// A command at its moment, or why the line has none.
type Asked = Result<Order, LineFault>;

// A definition is put where it is taken.
fn put(
    alloc: Global,
    moment: u64,
    api: Text,
    taken: Result<Api, LineFault>,
) -> Result<Asked, Memory>
    ensures { IfOk result (λ asked. asked ≡ put_by moment api taken) }
{
    match taken {
        Ok(definition) => {
            let definition = Shared::new(alloc, definition)?;
            let command = Command::PutApi { api, definition };
            Ok(Ok(Order { moment, command }))
        }
        Err(fault) => Ok(Err(fault)),
    }
}

// What a record asks for.
fn asked_by(alloc: Global, found: Record) -> Result<Asked, Memory>
    ensures { IfOk result (λ asked. asked ≡ asked_by_record found) }
{
    match found {
        Record::PutText {
            moment,
            api,
            template,
        } => {
            let taken = take_text(alloc, template.as_str())?;
            put(alloc, moment, api, taken)
        }
        Record::PutDocument {
            moment,
            api,
            document,
        } => {
            let taken = take_document(alloc, document.as_str())?;
            put(alloc, moment, api, taken)
        }
        Record::Ask { moment, command } => Ok(Ok(Order { moment, command })),
        Record::Post { .. } | Record::Call { .. } => Ok(Err(LineFault::BadRecord)),
    }
}

/// What a line asks for.
pub fn asked_in(alloc: Global, line: &[u8]) -> Result<Asked, Memory>
    ensures { IfOk result (λ asked. asked ≡ asked_in_line line.now) }
{
    match record_in(alloc, line)? {
        Ok(found) => asked_by(alloc, found),
        Err(fault) => Ok(Err(fault)),
    }
}
