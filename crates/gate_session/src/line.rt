// The line that a session ends with.
ghost use Rattle.std.specs.Prelude.{◌≡◌, IfOk};
ghost use Rattle.gate_session.specs.Line.{called_part as called_part_of, counted_line as counted_line_of, refused_part as refused_part_of, session_line as session_line_of};

use book_core::{Book, Counts};
use gw_base::{Memory, Text};
use keeper_core::Keeper;
use std::alloc::Global;

// How many entries and calls came, and how many of these were admitted.
#[tactic(auto, unfolding(crate::specs::Line::called_part))]
fn called_part(alloc: Global, entries: usize, counts: Counts) -> Result<Text, Memory>
    ensures { IfOk result (λ part. part ≡ called_part_of entries counts) }
{
    let Counts {
        calls,
        admitted,
        ..
    } = counts;
    let part = format!(in alloc; "session entries={entries} calls={calls} admitted={admitted}")?;
    Ok(Text::of(part))
}

// How many were throttled and over their quota, and how many changes were not kept.
#[tactic(auto, unfolding(crate::specs::Line::refused_part))]
fn refused_part(alloc: Global, counts: Counts) -> Result<Text, Memory>
    ensures { IfOk result (λ part. part ≡ refused_part_of counts) }
{
    let Counts {
        throttled,
        quota,
        not_kept,
        ..
    } = counts;
    let part = format!(in alloc; " throttled={throttled} quota={quota} notkept={not_kept}\n")?;
    Ok(Text::of(part))
}

fn counted_line(alloc: Global, entries: usize, counts: Counts) -> Result<Text, Memory>
    ensures { IfOk result (λ line. line ≡ counted_line_of entries counts) }
{
    let called = called_part(alloc, entries, counts)?;
    let refused = refused_part(alloc, counts)?;
    let mut line = String::from_str(alloc, called.as_str())?;
    line.push_str(refused.as_str())?;
    Ok(Text::of(line))
}

/// The line of a book's history: how many entries it has, how many calls came, how many of them were admitted, throttled and over
/// their quota, and how many changes were not kept.
pub fn session_line<K: Keeper>(alloc: Global, book: &Book<K>) -> Result<Text, Memory>
    ensures { IfOk result (λ line. line ≡ session_line_of book.now.base.opening book.now.history) }
{
    counted_line(alloc, book.history().len(), book.counts())
}
