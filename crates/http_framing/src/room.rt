// Room for the fields of a head.
ghost use Rattle.std.specs.Prelude.{◌≤◌, OnOk, length};

use gw_base::Memory;
use httparse::spans::{EMPTY_HEADER_SPAN, HeaderSpan};
use std::alloc::Global;

/// As many fields as most heads have at most.
pub const FEW_FIELDS: usize = 16;

/// More fields than the longest head can hold, since a field has three bytes at least. So the parser sees every field
/// of a head, and a byte that no head can have is told before the fields are counted.
pub const ROOM: usize = 3414;

/// Makes room for so many fields, where there is less.
pub fn make_room(alloc: Global, room: &mut Vec<HeaderSpan>, fields: usize) -> Result<(), Memory>
    ensures { OnOk result (fields ≤ length room.new.items) }
{
    if room.len() < fields {
        *room = Vec::from_elem(alloc, EMPTY_HEADER_SPAN, fields)?;
    }
    Ok(())
}
