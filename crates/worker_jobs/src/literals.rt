// The literal by which a candidate is tested.
ghost use Rattle.std.specs.Prelude.{◌≡◌};
ghost use Rattle.ground_program.specs.Bounds.{IsCandidate};
ghost use Rattle.clause_store.specs.Clause.{IsOver};
ghost use Rattle.normal_program.specs.Normal.{greatest_body_var};
ghost use Rattle.normal_program.specs.Limit.{IsNormal};
ghost use Rattle.worker_jobs.specs.Job.{test_literal};

use clause_store::{Lit, Var};
use ground_program::Mode;
use normal_program::{Normal, normal_form_is_in_range};

/// The literal that an answer set makes true where it shows the candidate: the atom is false in
/// cautious mode, and true in brave mode.
pub fn test_literal(normal: &Normal, mode: Mode, cand: u32) -> Lit
    requires normal { IsNormal normal.now }
    requires candidate { IsCandidate normal.now.names cand }
    ensures is { result ≡ test_literal normal.now.names mode cand }
    ensures over { IsOver (greatest_body_var normal.now) result }
{
    normal_form_is_in_range();
    let atom = Var(normal.names.get(cand as usize - 1).atom);
    match mode {
        Mode::Cautious => atom.negative(),
        Mode::Brave => atom.positive(),
    }
}
