// What a play's connection reads of its clock and of its words.
use gw_base::Words;

/// The moment at which all messages of a connection come, in milliseconds since 1970, and their word of chance.
#[derive(Clone, Copy, Debug, Drop, PartialEq, Eq)]
pub struct Reading {
    pub moment: u64,
    pub word: u64,
}

/// Words that are all the same.
#[derive(Drop)]
pub(crate) struct FixedWord {
    pub(crate) word: u64,
}

impl Words for FixedWord {
    ghost use Rattle.std.specs.Prelude.{Some};

    ghost fixed = { λ w. Some w.word };

    fn next(&mut self) -> u64 {
        self.word
    }
}
