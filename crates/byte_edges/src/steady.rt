// A source and a sink that never fail.
ghost use Rattle.std.specs.Prelude.{◌≡◌, ◌≤◌, ◌<◌, ◌+◌, ◌++◌, List, ℕ, [], Some, Ok, Bool, true};
ghost use Rattle.std.specs.Prelude.{false, length, min, drop, IfOk};
ghost use Rattle.byte_edges.specs.Edges.{Moved, Appended};
ghost use Rattle.byte_edges.specs.Memory.{SteadyState, told_by, after_steady_write};

use crate::pieces::{keep, move_front};
use crate::{Failed, NoMemory, Sink, Source};
use std::alloc::Global;
use std::marker::Model;

/// Bytes in memory, all given as they are asked for. Clauses see those that are left.
#[derive(Debug, Drop)]
pub struct SteadySource {
    bytes: Vec<u8>,
    at: usize,
}

impl Model for SteadySource {
    ghost use Rattle.std.specs.Prelude.{◌≤◌, List, ℕ, drop, vec_len};

    ghost Value = { List ℕ };

    ghost view = { λ source. drop source.at source.bytes.items };

    ghost invariant = { λ source. source.at ≤ vec_len source.bytes };
}

impl SteadySource {
    /// A source of these bytes.
    pub fn open(bytes: Vec<u8>) -> SteadySource
        ensures { result ≡ bytes.items }
    {
        SteadySource { bytes, at: 0 }
    }
}

impl Source for SteadySource {
    ghost left = { λ left. Some left };

    // It never fails.
    ghost faults = { λ _. 0 };

    fn read(&mut self, into: &mut [u8]) -> Result<usize, Failed> {
        let count = move_front(&self.bytes[self.at..], into, into.len());
        self.at += count;
        Ok(count)
    }
}

/// Bytes in memory that were written, until a write doesn't fit. Then it tells nothing any more.
#[derive(Debug, Drop)]
pub struct SteadySink {
    kept: Vec<u8>,
    room: usize,
    overflowed: bool,
}

impl Model for SteadySink {
    ghost use Rattle.std.specs.Prelude.{◌≤◌, vec_len, vec_capacity};
    ghost use Rattle.byte_edges.specs.Memory.{SteadyState};

    ghost Value = { SteadyState };

    ghost view = { λ sink.
        record { kept = sink.kept.items; room = sink.room; overflowed = sink.overflowed } };

    ghost invariant = { λ sink. (vec_len sink.kept ≤ sink.room)
        × (sink.room ≤ vec_capacity sink.kept) };
}

impl SteadySink {
    /// An empty sink with room for so many bytes.
    pub fn open(alloc: Global, room: usize) -> Result<SteadySink, NoMemory>
        ensures { IfOk result
            (λ sink. sink ≡ record { kept = []; room = room; overflowed = false }) }
    {
        let kept = Vec::with_capacity(alloc, room)?;
        Ok(SteadySink {
            kept,
            room,
            overflowed: false,
        })
    }

    /// The bytes that are kept: all that was written before the first write that didn't fit.
    pub fn written(&self) -> &[u8]
        ensures { result.now ≡ self.now.kept }
    {
        &self.kept
    }
}

impl Sink for SteadySink {
    ghost written = { told_by };

    // It never fails.
    ghost faults = { λ _. 0 };

    fn write(&mut self, bytes: &[u8]) -> Result<usize, Failed>
        requires { 0 < length bytes.now }
        ensures all { result ≡ Ok (length bytes.now) }
        ensures appended { Appended (told_by self.old) (told_by self.new) bytes.now }
        ensures after { self.new ≡ after_steady_write self.old bytes.now }
    {
        if !self.overflowed && bytes.len() <= self.room - self.kept.len() {
            keep(&mut self.kept, bytes);
        } else {
            self.overflowed = true;
        }
        Ok(bytes.len())
    }
}
