// An input and an output over any reader and writer of std.
ghost use Rattle.std.specs.Prelude.{None};

use gw_base::{Failed, Sink, Source, WriteStop};
use std::io::{Read, Write};

/// A source over a reader, which counts the reads that fail.
#[derive(Drop)]
pub struct ReaderSource<R: Read + Drop> {
    inner: R,
    faults: u64,
}

impl<R: Read + Drop> ReaderSource<R> {
    /// A source of which no read has failed.
    pub fn new(inner: R) -> Self {
        ReaderSource { inner, faults: 0 }
    }
}

impl<R: Read + Drop> Source for ReaderSource<R> {
    ghost left = { λ s. R.remaining s.inner };

    ghost faults = { λ s. s.faults };

    ghost beside = { λ _. (None, 0) };

    fn read(&mut self, buf: &mut [u8]) -> Result<usize, Failed> {
        match self.inner.read(buf) {
            Ok(count) => Ok(count),
            Err(_) => {
                self.faults = self.faults.saturating_add(1);
                Err(Failed)
            }
        }
    }
}

/// A sink over a writer, which counts the writes that fail. A write that takes nothing is one of them.
#[derive(Drop)]
pub struct WriterSink<W: Write + Drop> {
    inner: W,
    faults: u64,
}

impl<W: Write + Drop> WriterSink<W> {
    /// A sink of which no write has failed.
    pub fn new(inner: W) -> Self {
        WriterSink { inner, faults: 0 }
    }
}

impl<W: Write + Drop> Sink for WriterSink<W> {
    ghost written = { λ s. W.contents s.inner };

    ghost faults = { λ s. s.faults };

    ghost beside = { λ _. (None, 0) };

    fn write(&mut self, piece: &[u8]) -> Result<usize, WriteStop> {
        match self.inner.write(piece) {
            Ok(count) if count > 0 => Ok(count),
            _ => {
                self.faults = self.faults.saturating_add(1);
                Err(WriteStop::Failed)
            }
        }
    }
}
