// A source in memory that gives few bytes a call and fails at the calls that it is told.
ghost use Rattle.std.specs.Prelude.{◌≡◌, ◌≤◌, ◌<◌, ◌↔◌, [], Some, length, IfOk, OnErr, IsErr};
ghost use Rattle.byte_edges.specs.Faults.{Rose};
ghost use Rattle.byte_edges.specs.Edges.{Moved};
ghost use Rattle.byte_edges.specs.Memory.{SourceState, IsListed, read_count, after_read};

use crate::pieces::move_front;
use crate::schedule::Schedule;
use crate::{Failed, Source};
use std::marker::Model;

/// Bytes in memory. Clauses see what is left of them, and which calls fail.
#[derive(Debug, Drop)]
pub struct MemorySource {
    bytes: Vec<u8>,
    at: usize,
    most: usize,
    schedule: Schedule,
}

impl Model for MemorySource {
    ghost use Rattle.std.specs.Prelude.{◌≤◌, drop, vec_len};
    ghost use Rattle.byte_edges.specs.Memory.{SourceState};

    ghost Value = { SourceState };

    ghost view = { λ source. record {
      left = drop source.at source.bytes.items;
      most = source.most;
      fails = source.schedule.fails.items;
      calls = source.schedule.calls;
      faults = source.schedule.faults;
    } };

    ghost invariant = { λ source. (source.at ≤ vec_len source.bytes) × (1 ≤ source.most) };
}

impl MemorySource {
    /// A source of these bytes. One read moves at most `most` of them, and the reads whose numbers,
    /// counted from 1, stand in `fails` fail.
    pub fn open(bytes: Vec<u8>, most: usize, fails: Vec<u64>) -> MemorySource
        requires { 1 ≤ most }
        ensures { result
            ≡ record {
              left = bytes.items;
              most = most;
              fails = fails.items;
              calls = 0;
              faults =
                  0;
            } }
    {
        let schedule = Schedule {
            fails,
            calls: 0,
            faults: 0,
        };
        MemorySource {
            bytes,
            at: 0,
            most,
            schedule,
        }
    }
}

impl Source for MemorySource {
    ghost left = { λ source. Some source.left };

    ghost faults = { λ source. source.faults };

    fn read(&mut self, into: &mut [u8]) -> Result<usize, Failed>
        requires { 0 < length into.old }

        ensures within { IfOk result (λ n. n ≤ length into.old) }
        ensures moved { IfOk result
            (λ n. Moved n self.old.left (Some self.new.left) into.old into.new) }
        ensures end { IfOk result (λ n. n ≡ 0 → self.old.left ≡ []) }
        ensures cause { OnErr result (Rose self.old.faults self.new.faults) }
        ensures unread { OnErr result (self.new.left ≡ self.old.left) }
        ensures count { self.old.faults ≤ self.new.faults }

        // Which calls fail, how much the others move, and what is different after them.
        ensures fails { IsErr result ↔ IsListed self.old.fails self.old.calls }
        ensures amount { IfOk result (λ n. n ≡ read_count self.old (length into.old)) }
        ensures after { self.new ≡ after_read self.old result }
    {
        if self.schedule.count_call() {
            return Err(self.schedule.count_fault());
        }
        let count = move_front(&self.bytes[self.at..], into, self.most);
        self.at += count;
        Ok(count)
    }
}
