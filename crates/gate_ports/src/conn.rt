// One connection.
ghost use Rattle.std.specs.Prelude.{◌≡◌, []};

use gw_base::{Sink, Source};

/// One connection: what comes in on it and what goes out. Reading leaves what was written and the count of failed writes,
/// and writing leaves what is left and the count of failed reads.
pub trait Conn: Source + Sink {
    /// Says that the next read begins a message. `held` is what the caller has taken of that message, which is nothing: so a
    /// connection whose peer is silent may answer that read with the end of its input, and no byte is lost. It changes
    /// nothing that contracts see.
    fn begin_message(&mut self, held: &[u8])
        requires nothing_held { held.now ≡ [] }
        ensures left { Self.left self.new ≡ Self.left self.old }
        ensures written { Self.written self.new ≡ Self.written self.old }
        ensures read_faults { Self.Source.faults self.new ≡ Self.Source.faults self.old }
        ensures write_faults { Self.Sink.faults self.new ≡ Self.Sink.faults self.old };

    ghost reads_beside: { (c : Self) → Self.Source.beside c ≡ (Self.written c, Self.Sink.faults c) };

    ghost writes_beside: { (c : Self) → Self.Sink.beside c ≡ (Self.left c, Self.Source.faults c) };
}
