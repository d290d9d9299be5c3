// Why nothing was read.
ghost use Rattle.std.specs.Prelude.{◌≡◌, ◌+◌, IfErr, IfOk};
ghost use Rattle.vtl_grammar.specs.Strings.{moved as moved_of};
ghost use Rattle.vtl_grammar.specs.Templates.{placed as placed_of};
ghost use Rattle.vtl_reader.specs.Views.{closed, IsMoved};
ghost use Rattle.vtl_reader.specs.declared.error.ReadError.TheVariants.{Memory as no_memory};

use gw_base::{Memory, Text};
use std::alloc::{AllocError, AllocFailed, Global};
use vtl_grammar::{Fault, TemplateFault};

/// Want of memory, or the first fault, whose place is told by the number of bytes from it to the end.
#[derive(Clone, Copy, Debug, PartialEq, Eq)]
pub enum ReadError {
    Memory,
    Met(Fault),
}

impl From<AllocError> for ReadError {
    ghost from_gives = { λ _ e. e ≡ no_memory };

    fn from(_: AllocError) -> Self {
        ReadError::Memory
    }
}

impl From<Memory> for ReadError {
    ghost from_gives = { λ _ e. e ≡ no_memory };

    fn from(_: Memory) -> Self {
        ReadError::Memory
    }
}

impl<T: Drop> From<AllocFailed<T>> for ReadError {
    ghost from_gives = { λ _ e. e ≡ no_memory };

    fn from(_: AllocFailed<T>) -> Self {
        ReadError::Memory
    }
}

/// What is not closed at the end began at this place.
pub fn closed_at(at: usize, error: ReadError) -> ReadError
    ensures { result ≡ closed at error }
{
    match error {
        ReadError::Met(Fault::Unclosed(_)) => ReadError::Met(Fault::Unclosed(at)),
        other => other,
    }
}

// A place behind which so many bytes more stand; no two numbers of bytes of one text have a sum past the last.
fn further(at: usize, n: usize) -> Result<usize, ReadError>
    ensures ok { IfOk result (λ place. place ≡ at + n) }
    ensures err { IfErr result (λ e. e ≡ no_memory) }
{
    match at.checked_add(n) {
        Some(place) => Ok(place),
        None => Err(ReadError::Memory),
    }
}

// The fault, behind which so many bytes more stand.
fn moved_fault(n: usize, fault: Fault) -> Result<Fault, ReadError>
    ensures ok { IfOk result (λ other. other ≡ moved_of n fault) }
    ensures err { IfErr result (λ e. e ≡ no_memory) }
{
    Ok(match fault {
        Fault::Unclosed(_) => Fault::BadExpression(n),
        Fault::BadDirective(at) => Fault::BadDirective(further(at, n)?),
        Fault::BadExpression(at) => Fault::BadExpression(further(at, n)?),
        Fault::UnsupportedMethod(at) => Fault::UnsupportedMethod(further(at, n)?),
        Fault::Escape(at) => Fault::Escape(further(at, n)?),
        Fault::ParamAssigned(at) => Fault::ParamAssigned(further(at, n)?),
        Fault::TooDeep(at) => Fault::TooDeep(further(at, n)?),
    })
}

/// An error inside a string, behind whose inside n bytes stand, its closing quote among them.
pub fn moved_by(n: usize, error: ReadError) -> ReadError
    ensures { IsMoved n error result }
{
    match error {
        ReadError::Memory => ReadError::Memory,
        ReadError::Met(fault) => match moved_fault(n, fault) {
            Ok(fault) => ReadError::Met(fault),
            Err(e) => e,
        },
    }
}

/// A part of the text as a text of its own. Texts are cut at ASCII bytes alone, so that each part is UTF-8.
pub fn text_of(alloc: Global, bytes: &[u8]) -> Result<Text, ReadError>
    ensures ok { IfOk result (λ t. t ≡ bytes.now) }
    ensures err { IfErr result (λ e. e ≡ no_memory) }
{
    match String::from_utf8(Vec::from_slice(alloc, bytes)?) {
        Ok(text) => Ok(Text::of(text)),
        Err(_) => Err(ReadError::Memory),
    }
}

/// The fault in a text of n bytes, its place told from the front.
pub fn placed(n: usize, fault: Fault) -> TemplateFault
    ensures { result ≡ placed_of n fault }
{
    match fault {
        Fault::Unclosed(left) => TemplateFault::Unclosed(n.saturating_sub(left)),
        Fault::BadDirective(left) => TemplateFault::BadDirective(n.saturating_sub(left)),
        Fault::BadExpression(left) => TemplateFault::BadExpression(n.saturating_sub(left)),
        Fault::UnsupportedMethod(left) => TemplateFault::UnsupportedMethod(n.saturating_sub(left)),
        Fault::Escape(left) => TemplateFault::Escape(n.saturating_sub(left)),
        Fault::ParamAssigned(left) => TemplateFault::ParamAssigned(n.saturating_sub(left)),
        Fault::TooDeep(left) => TemplateFault::TooDeep(n.saturating_sub(left)),
    }
}
