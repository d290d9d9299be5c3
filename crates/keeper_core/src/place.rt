// Where a key stands among rows in order.
ghost use Rattle.std.specs.Prelude.{◌≡◌, ◌+◌, ◌-◌, ◌≤◌, length, IsOk, OnOk, OnErr};
ghost use Rattle.std.specs.Option.{option_copied};
ghost use Rattle.std.specs.Vec.{vec_capacity};
ghost use Rattle.keeper_core.specs.Places.{IsWithin, put_at as put_at_of, row_at as row_at_of, place_of as place_of_found};

use gw_base::Memory;

/// Where a key stands among rows in the order of their keys.
#[derive(Clone, Copy, Debug, PartialEq, Eq)]
pub enum Place {
    /// The row of this index, counted from 0, has the key.
    At(usize),
    /// No row has the key. A new one goes before the row of this index, or to the end where it is the number of rows.
    Before(usize),
}

pub(crate) fn place_of(found: Result<usize, usize>) -> Place
    ensures { result ≡ place_of_found found }
{
    match found {
        Ok(i) => Place::At(i),
        Err(i) => Place::Before(i),
    }
}

pub(crate) fn row_at<T>(rows: &[T], place: Place) -> Option<&T>
    requires { IsWithin place (length rows.now) }
    ensures { option_copied result ≡ row_at_of place rows.now }
{
    match place {
        Place::At(i) => rows.get(i),
        Place::Before(_) => None,
    }
}

// Room is what the rows take more without memory. A row in the place of another uses none.
pub(crate) fn put_at<T: Drop>(rows: &mut Vec<T>, place: Place, row: T) -> Result<(), Memory>
    requires { IsWithin place (length rows.old.items) }
    ensures ok { OnOk result (rows.new.items ≡ put_at_of place row rows.old.items) }
    ensures err { OnErr result (rows.new.items ≡ rows.old.items) }
    ensures succeeds { 1 ≤ vec_capacity rows.old - length rows.old.items → IsOk result }
    ensures room { vec_capacity rows.old - length rows.old.items ≤ vec_capacity rows.new - length rows.new.items + 1 }
{
    match place {
        Place::At(i) => rows[i] = row,
        Place::Before(i) => rows.insert(i, row)?,
    }
    Ok(())
}
