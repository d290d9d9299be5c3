// What may come of a row where memory is refused.
use std::fmt;

/// What came of a row.
#[derive(Clone, Copy, Debug, PartialEq, Eq)]
pub(crate) enum Came {
    /// All that comes where nothing is refused.
    Whole,
    /// Want of memory, behind so many of these.
    Memory(usize, &'static str),
    /// Memory was refused to the test itself, before anything was begun.
    Nothing,
    /// What may not come.
    Wrong(&'static str),
}

impl Came {
    pub(crate) fn may_come(self) -> bool {
        !matches!(self, Came::Wrong(_))
    }
}

impl fmt::Display for Came {
    fn fmt<W: fmt::Write>(&self, f: &mut fmt::Formatter<W>) -> fmt::Result {
        match self {
            Came::Whole => f.write_str("whole"),
            Came::Memory(count, of) => write!(f, "memory behind {count} {of}"),
            Came::Nothing => f.write_str("nothing"),
            Came::Wrong(why) => write!(f, "{why}"),
        }
    }
}
