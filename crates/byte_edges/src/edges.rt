// The two edges of a program: where its bytes come from, and where they go.
ghost use Rattle.std.specs.Prelude.{◌≡◌, ◌≤◌, ◌<◌, ℕ, List, [], Option, Some, Ok, length};
ghost use Rattle.std.specs.Prelude.{take, IfSome, IfOk, OnErr, OnOk};
ghost use Rattle.byte_edges.specs.Faults.{Rose};
ghost use Rattle.byte_edges.specs.Edges.{Moved, Appended};

/// A call of a source or a sink failed, and its count of faults rose.
#[derive(Clone, Copy, Debug, PartialEq, Eq)]
pub struct Failed {}

/// Where bytes come from.
pub trait Source {
    /// The bytes left, where the source tells them.
    ghost left: { Self → Option (List ℕ) };

    /// How often a read failed.
    ghost faults: { Self → ℕ };

    /// Takes some bytes, and none only at the end.
    fn read(&mut self, into: &mut [u8]) -> Result<usize, Failed>
        requires { 0 < length into.old }

        ensures within { IfOk result (λ n. n ≤ length into.old) }
        ensures moved { IfOk result
            (λ n. IfSome (left self.old)
            (λ bytes. Moved n bytes (left self.new) into.old into.new)) }
        ensures end { IfOk result (λ n. n ≡ 0 → IfSome (left self.old) (λ bytes. bytes ≡ [])) }

        // A failed read takes nothing.
        ensures cause { OnErr result (Rose (faults self.old) (faults self.new)) }
        ensures unread { OnErr result
            (IfSome (left self.old) (λ bytes. left self.new ≡ Some bytes)) }

        ensures count { faults self.old ≤ faults self.new };
}

/// Where bytes go.
pub trait Sink {
    /// The bytes written, where the sink tells them.
    ghost written: { Self → Option (List ℕ) };

    /// How often a write failed.
    ghost faults: { Self → ℕ };

    /// Takes some bytes, at least one.
    fn write(&mut self, bytes: &[u8]) -> Result<usize, Failed>
        requires { 0 < length bytes.now }

        ensures some { IfOk result (λ n. 1 ≤ n) }
        ensures within { IfOk result (λ n. n ≤ length bytes.now) }
        ensures appended { IfOk result
            (λ n. Appended (written self.old) (written self.new) (take n bytes.now)) }

        // A failed write adds nothing.
        ensures cause { OnErr result (Rose (faults self.old) (faults self.new)) }
        ensures unwritten { OnErr result (written self.new ≡ written self.old) }

        ensures count { faults self.old ≤ faults self.new };
}
