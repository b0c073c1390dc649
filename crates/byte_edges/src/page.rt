// A page of fixed room, in which a short text is gathered before it is written.
ghost use Rattle.std.specs.Prelude.{◌≡◌, ◌≤◌, ◌<◌, ◌+◌, ◌↔◌, [], Some, length, IfOk, OnErr, IsOk};
ghost use Rattle.byte_edges.specs.Faults.{Rose};
ghost use Rattle.byte_edges.specs.Edges.{Appended};
ghost use Rattle.byte_edges.specs.Memory.{PageState};

use crate::{Failed, Sink};
use std::marker::Model;

// How many bytes a page holds.
const ROOM: usize = 4096;

/// Up to 4096 bytes, on the stack. A write that doesn't fit fails and leaves the page as it is. So
/// a text of several fields is gathered here first and then goes out by one write; where it
/// doesn't fit, it is written field by field.
#[derive(Drop)]
pub struct Page {
    cells: [u8; ROOM],
    len: usize,
    faults: u64,
}

impl Model for Page {
    ghost use Rattle.std.specs.Prelude.{◌≤◌, take};
    ghost use Rattle.byte_edges.specs.Memory.{PageState};

    ghost Value = { PageState };

    ghost view = { λ page. record { written = take page.len page.cells; faults = page.faults } };

    ghost invariant = { λ page. page.len ≤ 4096 };
}

impl Page {
    /// An empty page. It takes no memory.
    pub fn open() -> Page
        ensures { result ≡ record { written = []; faults = 0 } }
    {
        Page {
            cells: [0; ROOM],
            len: 0,
            faults: 0,
        }
    }

    /// The bytes that were written.
    pub fn written(&self) -> &[u8]
        ensures { result.now ≡ self.now.written }
    {
        &self.cells[..self.len]
    }
}

impl Sink for Page {
    ghost written = { λ page. Some page.written };

    ghost faults = { λ page. page.faults };

    fn write(&mut self, bytes: &[u8]) -> Result<usize, Failed>
        requires { 0 < length bytes.now }

        // It takes all or nothing.
        ensures all { IfOk result (λ n. n ≡ length bytes.now) }
        ensures fits { IsOk result ↔ (length self.old.written + length bytes.now ≤ 4096) }
        ensures appended { IfOk result
            (λ n. Appended (Some self.old.written) (Some self.new.written) bytes.now) }
        ensures cause { OnErr result (Rose self.old.faults self.new.faults) }
        ensures unwritten { OnErr result (self.new.written ≡ self.old.written) }
        ensures count { self.old.faults ≤ self.new.faults }
    {
        if bytes.len() > ROOM - self.len {
            self.faults = self.faults.saturating_add(1);
            return Err(Failed {});
        }
        let end = self.len + bytes.len();
        self.cells[self.len..end].copy_from_slice(bytes);
        self.len = end;
        Ok(bytes.len())
    }
}
