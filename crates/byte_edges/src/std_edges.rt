// The real edges: std's readers and writers. They tell nothing of their bytes.
ghost use Rattle.std.specs.Prelude.{◌≡◌, ℕ, None};

use crate::{Failed, Sink, Source};
use std::io::{Read, Write};
use std::marker::Model;

/// A reader of std. Clauses see how often it failed.
#[derive(Drop)]
pub struct StdSource<R> {
    reader: R,
    faults: u64,
}

impl<R> Model for StdSource<R> {
    ghost Value = { ℕ };

    ghost view = { λ source. source.faults };
}

impl<R> StdSource<R> {
    /// The source that reads from this reader.
    pub fn open(reader: R) -> StdSource<R>
        ensures { result ≡ 0 }
    {
        StdSource { reader, faults: 0 }
    }
}

impl<R: Read> Source for StdSource<R> {
    ghost left = { λ _. None };

    ghost faults = { λ faults. faults };

    fn read(&mut self, into: &mut [u8]) -> Result<usize, Failed> {
        let faults = self.faults;
        match self.reader.read(into) {
            Ok(count) => Ok(count),
            Err(_) => {
                self.faults = faults.saturating_add(1);
                Err(Failed {})
            }
        }
    }
}

/// A writer of std. Clauses see how often it failed.
#[derive(Drop)]
pub struct StdSink<W> {
    writer: W,
    faults: u64,
}

impl<W> Model for StdSink<W> {
    ghost Value = { ℕ };

    ghost view = { λ sink. sink.faults };
}

impl<W> StdSink<W> {
    /// The sink that writes to this writer.
    pub fn open(writer: W) -> StdSink<W>
        ensures { result ≡ 0 }
    {
        StdSink { writer, faults: 0 }
    }
}

impl<W: Write> Sink for StdSink<W> {
    ghost written = { λ _. None };

    ghost faults = { λ faults. faults };

    /// A write that takes nothing counts as a failure.
    fn write(&mut self, bytes: &[u8]) -> Result<usize, Failed> {
        let faults = self.faults;
        match self.writer.write(bytes) {
            Ok(count) if count > 0 => Ok(count),
            _ => {
                self.faults = faults.saturating_add(1);
                Err(Failed {})
            }
        }
    }
}
