// What is lent and given back.
ghost use Rattle.std.specs.Prelude.{◌≡◌, ◌≤◌, [], length, take, IfOk, OnOk, OnErr};
ghost use Rattle.outside_core.specs.Held.{first_lent, all_returned};

use gw_base::Memory;
use std::marker::Model;
use std::mem;

/// What waits to be lent, and what was given back. There is room for all that is lent.
#[derive(Drop)]
pub(crate) struct Lent<L> {
    waiting: Vec<L>,
    returned: Vec<L>,
    out: usize,
}

impl<L> Model for Lent<L> {
    ghost use Rattle.std.specs.Prelude.{◌≤◌, ◌+◌, vec_len, vec_capacity};
    ghost use Rattle.outside_core.specs.Held.{LentFacts};

    ghost Value = { LentFacts L };

    ghost view = { λ s. record { waiting = s.waiting.items; returned = s.returned.items; out = s.out } };

    // So what is given back takes no memory.
    ghost invariant = { λ s. vec_len s.returned + s.out ≤ vec_capacity s.returned };
}

impl<L: Drop> Lent<L> {
    /// All of it waits. It takes no memory.
    pub(crate) fn new(waiting: Vec<L>) -> Self
        ensures { result ≡ record { waiting = waiting.items; returned = []; out = 0 } }
    {
        Lent {
            returned: Vec::new(*waiting.allocator()),
            waiting,
            out: 0,
        }
    }

    /// Lends the first of those that wait.
    pub(crate) fn lend(&mut self, n: usize) -> Result<Vec<L>, Memory>
        requires { n ≤ length self.old.waiting }
        ensures lent { IfOk result (λ lent. lent.items ≡ take n self.old.waiting) }
        ensures after { OnOk result (self.new ≡ first_lent n self.old) }
        ensures refused { OnErr result (self.new ≡ self.old) }
    {
        let Some(out) = self.out.checked_add(n) else {
            return Err(Memory);
        };
        self.returned.reserve(out)?;
        let rest = self.waiting.split_off(n)?;
        self.out = out;
        Ok(mem::replace(&mut self.waiting, rest))
    }

    /// Takes back what was lent. It takes no memory.
    pub(crate) fn take_back(&mut self, lent: Vec<L>)
        requires { length lent.items ≤ self.old.out }
        ensures { self.new ≡ all_returned lent.items self.old }
    {
        let mut lent = lent;
        self.out -= lent.len();
        let _ = self.returned.append(&mut lent);
    }

    /// What waits, the next first.
    pub(crate) fn waiting(&self) -> &[L]
        ensures { result.now ≡ self.now.waiting }
    {
        self.waiting.as_slice()
    }

    /// What was given back, oldest first.
    pub(crate) fn returned(&self) -> &[L]
        ensures { result.now ≡ self.now.returned }
    {
        self.returned.as_slice()
    }
}
