// A connection in memory.
ghost use Rattle.std.specs.Prelude.{◌≡◌, [], IfOk};

use crate::slice_source::SliceSource;
use gate_ports::Conn;
use gw_base::{Bytes, Failed, Memory, Sink, Source, WriteStop};
use std::alloc::Global;
use std::marker::Model;

// The room that what is written begins with, enough for most answers; it grows where it is not.
const ROOM: usize = 512;

/// Bytes that are read from their front on, and those that were written. No read and no write fails, so its counts are 0; a
/// write may want memory.
#[derive(Drop)]
pub(crate) struct ScriptConn<'a> {
    source: SliceSource<'a>,
    written: Vec<u8>,
}

impl<'a> Model for ScriptConn<'a> {
    ghost use Rattle.play_session.specs.Sessions.{ConnFacts};

    ghost Value = { ConnFacts };

    ghost view = { λ c. record { left = c.source; written = c.written.items } };
}

impl<'a> ScriptConn<'a> {
    /// A connection on which these bytes come in, and nothing was written.
    pub(crate) fn new(alloc: Global, bytes: &'a [u8]) -> Result<Self, Memory>
        ensures { IfOk result (λ conn. conn ≡ record { left = bytes.now; written = [] }) }
    {
        Ok(ScriptConn {
            source: SliceSource::new(bytes),
            written: Vec::with_capacity(alloc, ROOM)?,
        })
    }

    /// What was written.
    pub(crate) fn into_written(self) -> Bytes
        ensures { result ≡ self.entry.written }
    {
        let ScriptConn { source: _, written } = self;
        Bytes::of(written)
    }
}

impl<'a> Source for ScriptConn<'a> {
    ghost use Rattle.std.specs.Prelude.{Some};

    ghost left = { λ c. Some c.left };

    ghost faults = { λ _. 0 };

    ghost beside = { λ c. (Some c.written, 0) };

    fn read(&mut self, buf: &mut [u8]) -> Result<usize, Failed> {
        self.source.read(buf)
    }
}

impl<'a> Sink for ScriptConn<'a> {
    ghost use Rattle.std.specs.Prelude.{Some};

    ghost written = { λ c. Some c.written };

    ghost faults = { λ _. 0 };

    ghost beside = { λ c. (Some c.left, 0) };

    fn write(&mut self, piece: &[u8]) -> Result<usize, WriteStop> {
        match self.written.extend_from_slice(piece) {
            Ok(()) => Ok(piece.len()),
            Err(_) => Err(WriteStop::Memory),
        }
    }
}

impl<'a> Conn for ScriptConn<'a> {
    ghost use Rattle.std.specs.Prelude.{refl};

    ghost reads_beside = { λ _. refl };

    ghost writes_beside = { λ _. refl };

    // The script has all its bytes: it is never silent.
    fn begin_message(&mut self, _held: &[u8]) {}
}
