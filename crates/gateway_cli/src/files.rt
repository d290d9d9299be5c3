// Asking for the files of `render` and of `check`.
ghost use Rattle.std.specs.Prelude.{◌≡◌, ℕ, List, Some, IfOk, OnOk, IsErrOf, Err, ◌≢◌};
ghost use Rattle.gw_base.specs.Outside.{Rose};
ghost use Rattle.gateway_cli.specs.Check.{check_of, checked_within};
ghost use Rattle.gateway_cli.specs.Files.{Holds, within};
ghost use Rattle.gateway_cli.specs.Render.{judged, render_of};
ghost use Rattle.gateway_cli.specs.Top.{OfTold};

use crate::stopped::Stopped;
use book_rules::Entry;
use gw_base::{Bytes, Memory, ReadAll};
use outside_core::Outside;
use std::alloc::Global;

/// The most bytes of a template's file.
const TEMPLATE_LIMIT: usize = 307_200;

/// The most bytes of a body's file.
const BODY_LIMIT: usize = 10_485_760;

/// The most bytes of a definition document's file.
const DOCUMENT_LIMIT: usize = 1_048_576;

// Asks for a file; one that is over its limit is answered as None.
fn file_in<O: Outside<Entry>>(
    alloc: Global,
    outside: &mut O,
    name: &str,
    limit: usize,
) -> Result<Option<Bytes>, Stopped>
    ensures read { IfOk result (λ bytes. (content : List ℕ) × Holds (O.files outside.old) name.now content × (bytes ≡ within limit content)) }
    ensures fault { IsErrOf result Stopped.File → Rose (O.faults outside.old) (O.faults outside.new) }
    ensures input { result ≢ Err Stopped.Input }
    ensures keeper { result ≢ Err Stopped.Keeper }
    ensures output { result ≢ Err Stopped.Output }
    ensures keepers { O.keepers_out outside.new ≡ O.keepers_out outside.old }
    ensures lanes { O.lanes_out outside.new ≡ O.lanes_out outside.old }
    ensures kept { OnOk result (O.faults outside.new ≡ O.faults outside.old) }
    ensures files { O.files outside.new ≡ O.files outside.old }
{
    match outside.file(alloc, name, limit) {
        Ok(bytes) => Ok(Some(Bytes::of(bytes))),
        Err(ReadAll::TooLong) => Ok(None),
        Err(ReadAll::Fault) => Err(Stopped::File),
        Err(ReadAll::Memory) => Err(Stopped::Memory),
    }
}

fn copy(alloc: Global, bytes: &Option<Bytes>) -> Result<Option<Bytes>, Memory>
    ensures { IfOk result (λ other. other ≡ bytes.now) }
{
    match bytes {
        Some(bytes) => Ok(Some(bytes.copy(alloc)?)),
        None => Ok(None),
    }
}

/// Asks for the template's file and then for the body's; one that is over its limit is answered as None. A file that is
/// named twice is asked for once.
pub fn files_in<O: Outside<Entry>>(
    alloc: Global,
    outside: &mut O,
    template: &str,
    body: &str,
) -> Result<(Option<Bytes>, Option<Bytes>), Stopped>
    ensures read { IfOk result (λ read. OfTold (O.files outside.old) (λ files. judged read.0 read.1 ≡ render_of files template.now body.now)) }
    ensures fault { IsErrOf result Stopped.File → Rose (O.faults outside.old) (O.faults outside.new) }
    ensures kept { OnOk result (O.faults outside.new ≡ O.faults outside.old) }
    ensures input { result ≢ Err Stopped.Input }
    ensures keeper { result ≢ Err Stopped.Keeper }
    ensures output { result ≢ Err Stopped.Output }
    ensures keepers { O.keepers_out outside.new ≡ O.keepers_out outside.old }
    ensures lanes { O.lanes_out outside.new ≡ O.lanes_out outside.old }
{
    let first = file_in(alloc, outside, template, TEMPLATE_LIMIT)?;
    if template == body {
        let second = copy(alloc, &first)?;
        return Ok((first, second));
    }
    let second = file_in(alloc, outside, body, BODY_LIMIT)?;
    Ok((first, second))
}

/// Asks for a document's file; one that is over its limit is answered as None.
pub fn document_in<O: Outside<Entry>>(
    alloc: Global,
    outside: &mut O,
    name: &str,
) -> Result<Option<Bytes>, Stopped>
    ensures read { IfOk result (λ read. OfTold (O.files outside.old) (λ files. checked_within read ≡ check_of files name.now)) }
    ensures fault { IsErrOf result Stopped.File → Rose (O.faults outside.old) (O.faults outside.new) }
    ensures kept { OnOk result (O.faults outside.new ≡ O.faults outside.old) }
    ensures input { result ≢ Err Stopped.Input }
    ensures keeper { result ≢ Err Stopped.Keeper }
    ensures output { result ≢ Err Stopped.Output }
    ensures keepers { O.keepers_out outside.new ≡ O.keepers_out outside.old }
    ensures lanes { O.lanes_out outside.new ≡ O.lanes_out outside.old }
{
    file_in(alloc, outside, name, DOCUMENT_LIMIT)
}
