// The line that a bad store prints.
ghost use Rattle.std.specs.Prelude.{◌≡◌, IfOk};
ghost use Rattle.serve_command.specs.Ends.{bad_store_line as bad_store_line_of};

use gw_base::{Memory, Text};
use keeper_core::Table;
use std::alloc::Global;

/// The line of a store with a row that no book starts from.
#[tactic(auto, unfolding(crate::specs::Ends::bad_store_line))]
pub(crate) fn bad_store_line(alloc: Global, table: Table, row: u64) -> Result<Text, Memory>
    ensures { IfOk result (λ line. line ≡ bad_store_line_of table row) }
{
    let line = format!(in alloc; "refused BadStore({table},{row})\n")?;
    Ok(Text::of(line))
}
