// What lines of commands ask for.
use book_rules::Command;

/// A command at its moment, in milliseconds.
pub struct Order {
    pub moment: u64,
    pub command: Command,
}
