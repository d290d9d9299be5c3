// How often a session was called, and how it replied.
ghost use Rattle.std.specs.Prelude.{◌≡◌, ◌<◌};
ghost use Rattle.book_core.specs.Books.{counted_with, is_admitted as is_admitted_of, is_call as is_call_of, is_exceeded as is_exceeded_of, is_throttled as is_throttled_of, no_counts};

use book_rules::{Event, Reply};

/// How often a session was called, how its calls for admission were replied, and how many changes it did not keep.
#[derive(Clone, Copy, Debug, PartialEq, Eq)]
pub struct Counts {
    /// The Enter entries.
    pub calls: u64,
    /// The Admit entries that were replied Admitted.
    pub admitted: u64,
    /// Those that were replied Throttled.
    pub throttled: u64,
    /// Those that were replied QuotaExceeded.
    pub quota: u64,
    /// The entries that are not kept.
    pub not_kept: u64,
}

fn is_call(event: &Event) -> bool
    ensures { result ≡ is_call_of event.now }
{
    match event {
        Event::Enter { .. } => true,
        Event::Recall { .. }
        | Event::Learn { .. }
        | Event::Admit { .. }
        | Event::Admin { .. }
        | Event::Leave { .. } => false,
    }
}

fn is_admitted(reply: &Reply) -> bool
    ensures { result ≡ is_admitted_of reply.now }
{
    match reply {
        Reply::Admitted { .. } => true,
        _ => false,
    }
}

fn is_throttled(reply: &Reply) -> bool
    ensures { result ≡ is_throttled_of reply.now }
{
    match reply {
        Reply::Throttled { .. } => true,
        _ => false,
    }
}

fn is_exceeded(reply: &Reply) -> bool
    ensures { result ≡ is_exceeded_of reply.now }
{
    match reply {
        Reply::QuotaExceeded { .. } => true,
        _ => false,
    }
}

impl Counts {
    /// Before the first entry.
    pub(crate) fn none() -> Self
        ensures { result ≡ no_counts }
    {
        Counts {
            calls: 0,
            admitted: 0,
            throttled: 0,
            quota: 0,
            not_kept: 0,
        }
    }

    /// With an event more, that was replied so.
    pub(crate) fn with(self, event: &Event, reply: &Reply, kept: bool) -> Self
        requires calls { self.calls < 4294967296 }
        requires admitted { self.admitted < 4294967296 }
        requires throttled { self.throttled < 4294967296 }
        requires quota { self.quota < 4294967296 }
        requires not_kept { self.not_kept < 4294967296 }
        ensures { result ≡ counted_with event.now reply.now kept self }
    {
        Counts {
            calls: self.calls + u64::from(is_call(event)),
            admitted: self.admitted + u64::from(is_admitted(reply)),
            throttled: self.throttled + u64::from(is_throttled(reply)),
            quota: self.quota + u64::from(is_exceeded(reply)),
            not_kept: self.not_kept + if kept { 0 } else { 1 },
        }
    }
}
