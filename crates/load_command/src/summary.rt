// What is printed of a load.
ghost use Rattle.std.specs.Prelude.{◌≡◌, count_by, IfOk};
ghost use Rattle.std.specs.Option.{option_copied};
ghost use Rattle.load_command.specs.Summary.{counted_part as counted_part_of, is_of_canary as is_of_canary_of, key_line as key_line_of, key_lines as key_lines_of, key_name as key_name_of, none_line as none_line_of, refused_part as refused_part_of, row_line as row_line_of, summary_of, used_line as used_line_of};

use book_core::{Book, Counts};
use book_rules::{Entry, Event};
use gw_base::{Memory, Text};
use keeper_core::{JoinRow, Keeper, Tables};
use play_script::join;
use stage_canary::takes_canary;
use std::alloc::Global;

const SHARE: u64 = 2500;

#[tactic(auto, unfolding(crate::specs::Summary::is_of_canary))]
fn is_of_canary(entry: &Entry) -> bool
    ensures { result ≡ is_of_canary_of entry.now }
{
    match &entry.event {
        Event::Enter { word, .. } => takes_canary(SHARE, *word),
        Event::Recall { .. }
        | Event::Learn { .. }
        | Event::Admit { .. }
        | Event::Admin { .. }
        | Event::Leave { .. } => false,
    }
}

// How many calls the canary took.
fn count_canary(history: &[Entry]) -> usize
    ensures { result ≡ count_by is_of_canary_of history.now }
{
    let mut taken = 0;
    for entry in history {
        if is_of_canary(entry) {
            taken += 1;
        }
    }
    taken
}

#[tactic(auto, unfolding(crate::specs::Summary::counted_part))]
fn counted_part(alloc: Global, calls: u64, counts: Counts) -> Result<Text, Memory>
    ensures { IfOk result (λ part. part ≡ counted_part_of calls counts) }
{
    let Counts {
        admitted,
        throttled,
        ..
    } = counts;
    let part = format!(in alloc; "calls={calls} admitted={admitted} throttled={throttled}")?;
    Ok(Text::of(part))
}

#[tactic(auto, unfolding(crate::specs::Summary::refused_part))]
fn refused_part(alloc: Global, counts: Counts, taken: usize) -> Result<Text, Memory>
    ensures { IfOk result (λ part. part ≡ refused_part_of counts taken) }
{
    let Counts { quota, .. } = counts;
    let part = format!(in alloc; " quota={quota} canary={taken}\n")?;
    Ok(Text::of(part))
}

#[tactic(auto, unfolding(crate::specs::Summary::used_line))]
fn used_line(alloc: Global, number: u64, row: &JoinRow) -> Result<Text, Memory>
    ensures { IfOk result (λ line. line ≡ used_line_of number row.now) }
{
    let used = row.used;
    let left = row.allowance.saturating_sub(used);
    let line = format!(in alloc; "k{number} used={used} remaining={left}\n")?;
    Ok(Text::of(line))
}

#[tactic(auto, unfolding(crate::specs::Summary::none_line))]
fn none_line(alloc: Global, number: u64) -> Result<Text, Memory>
    ensures { IfOk result (λ line. line ≡ none_line_of number) }
{
    let line = format!(in alloc; "k{number} none\n")?;
    Ok(Text::of(line))
}

fn row_line(alloc: Global, number: u64, row: Option<&JoinRow>) -> Result<Text, Memory>
    ensures { IfOk result (λ line. line ≡ row_line_of number (option_copied row.entry)) }
{
    match row {
        Some(row) if row.pkind != 0 => used_line(alloc, number, row),
        _ => none_line(alloc, number),
    }
}

fn key_name(alloc: Global, number: u64) -> Result<Text, Memory>
    ensures { IfOk result (λ name. name ≡ key_name_of number) }
{
    let name = format!(in alloc; "k{number}")?;
    Ok(Text::of(name))
}

// What stands of the key of a number.
fn key_line(alloc: Global, tables: &Tables, number: u64) -> Result<Text, Memory>
    ensures { IfOk result (λ line. line ≡ key_line_of tables.now.lists number) }
{
    let name = key_name(alloc, number)?;
    row_line(alloc, number, tables.join("p", name.as_str()))
}

// What stands of the eight keys.
fn key_lines(alloc: Global, tables: &Tables) -> Result<Text, Memory>
    ensures { IfOk result (λ lines. lines ≡ key_lines_of tables.now.lists 0 8) }
{
    let mut lines = String::new(alloc);
    for number in 0..8 {
        let line = key_line(alloc, tables, number)?;
        lines.push_str(line.as_str())?;
    }
    Ok(Text::of(lines))
}

/// The summary of a book's history, in which so many calls were asked for.
pub fn sum_up<K: Keeper>(alloc: Global, book: &Book<K>, calls: u64) -> Result<Text, Memory>
    ensures { IfOk result (λ text. text ≡ summary_of book.now.base.opening book.now.history calls) }
{
    let counts = book.counts();
    let counted = counted_part(alloc, calls, counts)?;
    let refused = refused_part(alloc, counts, count_canary(book.history()))?;
    let keys = key_lines(alloc, book.tables())?;
    join(alloc, &[counted.as_str(), refused.as_str(), keys.as_str()])
}
