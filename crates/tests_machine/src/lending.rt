// What any outside lends is given back.
ghost use Rattle.std.specs.Prelude.{◌≡◌, ◌≤◌};

use outside_core::Outside;
use std::alloc::Global;

/// What was lent.
#[derive(Clone, Copy, Debug, PartialEq, Eq)]
pub enum Lent {
    Nothing,
    Keeper,
    KeeperAndLanes,
}

/// Asks for the keeper of the store of this name and for so many lanes, and gives back what was lent.
pub fn lend<E, O: Outside<E>>(alloc: Global, outside: &mut O, name: &str, n: usize) -> Lent
    ensures keepers { O.keepers_out outside.new ≡ O.keepers_out outside.old }
    ensures lanes { O.lanes_out outside.new ≡ O.lanes_out outside.old }
    ensures later { O.faults outside.old ≤ O.faults outside.new }
{
    let Ok(keep) = outside.keeper(alloc, name) else {
        return Lent::Nothing;
    };
    let Ok(lanes) = outside.lanes(alloc, 0, n) else {
        outside.keeper_back(name, keep);
        return Lent::Keeper;
    };
    outside.lanes_back(lanes);
    outside.keeper_back(name, keep);
    Lent::KeeperAndLanes
}
