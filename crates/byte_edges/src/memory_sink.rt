// A sink in memory that takes few bytes a call, has little room and fails at the calls that it is
// told.
ghost use Rattle.std.specs.Prelude.{◌≡◌, ◌≤◌, ◌<◌, ◌↔◌, [], Some, length, take, IfOk, OnErr};
ghost use Rattle.std.specs.Prelude.{IsErr};
ghost use Rattle.byte_edges.specs.Faults.{Rose};
ghost use Rattle.byte_edges.specs.Edges.{Appended};
ghost use Rattle.byte_edges.specs.Memory.{SinkState, RefusesWrite, write_count, after_write};

use crate::pieces::keep;
use crate::schedule::Schedule;
use crate::{Failed, NoMemory, Sink};
use std::alloc::Global;
use std::marker::Model;

/// Bytes in memory that were written. Clauses see them, the room, and which calls fail.
#[derive(Debug, Drop)]
pub struct MemorySink {
    kept: Vec<u8>,
    room: usize,
    most: usize,
    schedule: Schedule,
}

impl Model for MemorySink {
    ghost use Rattle.std.specs.Prelude.{◌≤◌, vec_len, vec_capacity};
    ghost use Rattle.byte_edges.specs.Memory.{SinkState};

    ghost Value = { SinkState };

    ghost view = { λ sink. record {
      written = sink.kept.items;
      room = sink.room;
      most = sink.most;
      fails = sink.schedule.fails.items;
      calls = sink.schedule.calls;
      faults = sink.schedule.faults;
    } };

    ghost invariant = { λ sink.
        (vec_len sink.kept ≤ sink.room) × (sink.room ≤ vec_capacity sink.kept) × (1 ≤ sink.most) };
}

impl MemorySink {
    /// An empty sink with room for so many bytes. One write takes at most `most` of them, and the
    /// writes whose numbers, counted from 1, stand in `fails` fail. So do those that find no room.
    pub fn open(
        alloc: Global,
        room: usize,
        most: usize,
        fails: Vec<u64>,
    ) -> Result<MemorySink, NoMemory>
        requires { 1 ≤ most }
        ensures { IfOk result
            (λ sink. sink
            ≡ record {
              written = [];
              room = room;
              most = most;
              fails = fails.items;
              calls =
                  0;
              faults = 0;
            }) }
    {
        let kept = Vec::with_capacity(alloc, room)?;
        let schedule = Schedule {
            fails,
            calls: 0,
            faults: 0,
        };
        Ok(MemorySink {
            kept,
            room,
            most,
            schedule,
        })
    }

    /// The bytes that were written.
    pub fn written(&self) -> &[u8]
        ensures { result.now ≡ self.now.written }
    {
        &self.kept
    }
}

impl Sink for MemorySink {
    ghost written = { λ sink. Some sink.written };

    ghost faults = { λ sink. sink.faults };

    fn write(&mut self, bytes: &[u8]) -> Result<usize, Failed>
        requires { 0 < length bytes.now }

        ensures some { IfOk result (λ n. 1 ≤ n) }
        ensures within { IfOk result (λ n. n ≤ length bytes.now) }
        ensures appended { IfOk result
            (λ n. Appended (Some self.old.written) (Some self.new.written) (take n bytes.now)) }
        ensures cause { OnErr result (Rose self.old.faults self.new.faults) }
        ensures unwritten { OnErr result (self.new.written ≡ self.old.written) }
        ensures count { self.old.faults ≤ self.new.faults }

        // Which calls fail, how much the others take, and what is different after them.
        ensures fails { IsErr result ↔ RefusesWrite self.old }
        ensures amount { IfOk result (λ n. n ≡ write_count self.old (length bytes.now)) }
        ensures after { self.new ≡ after_write self.old bytes.now result }
    {
        let is_listed = self.schedule.count_call();
        let room = self.room - self.kept.len();
        if is_listed || room == 0 {
            return Err(self.schedule.count_fault());
        }
        let count = self.most.min(bytes.len().min(room));
        keep(&mut self.kept, &bytes[..count]);
        Ok(count)
    }
}
