// The machine's clock.
ghost use Rattle.std.specs.Prelude.{None};

use gw_base::Clock;
use std::time::{self, SystemTime};

/// The machine's clock. Where it can't be read the last reading is given again; before the first that is 0.
#[derive(Drop)]
pub struct SystemClock<'r, R: time::Clock> {
    rt: &'r R,
    last: u64,
}

impl<'r, R: time::Clock> SystemClock<'r, R> {
    /// The clock of this runtime, which was not read yet.
    pub fn new(rt: &'r R) -> Self {
        SystemClock { rt, last: 0 }
    }
}

// Milliseconds since the beginning of 1970.
fn read<R: time::Clock>(rt: &R) -> Option<u64> {
    let now = SystemTime::now(rt).ok()?;
    let since = now.duration_since(SystemTime::UNIX_EPOCH).ok()?;
    u64::try_from(since.as_millis()).ok()
}

impl<'r, R: time::Clock> Clock for SystemClock<'r, R> {
    ghost fixed = { λ _. None };

    fn now(&mut self) -> u64 {
        if let Some(moment) = read(self.rt) {
            self.last = moment;
        }
        self.last
    }
}
