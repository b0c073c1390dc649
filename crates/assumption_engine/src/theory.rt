// What a search knows beyond clauses.
ghost use Rattle.std.specs.Prelude.{◌≡◌, ◌≤◌, IfOk, List};
ghost use Rattle.clause_store.specs.Clause.{Meets};
ghost use Rattle.clause_store.specs.Standing.{AreFollowed, Followed, HasGoneBack};
ghost use Rattle.clause_store.specs.Trail.{IsTotal, values_of};
ghost use Rattle.assumption_engine.specs.Theory.{Meaning, MeansTheSame, IsGiven, IsChecked};

use crate::check::Check;
use clause_store::{Clause, Says, Trail};
use item_list::NoMemory;

/// A theory has models, which are assignments of all variables. It is asked at trails, and gives
/// one clause at a time. No call changes what it means.
pub trait Theory: Drop {
    /// What it means.
    ghost meaning: { Self → Meaning };

    /// The assignments that it follows: a front of the trail at which it was asked last.
    ghost followed: { Self → List Followed };

    /// Gives a clause of which all literals are false, or all but one, which is unset; or is quiet.
    fn propagate(&mut self, trail: &Trail, out: &mut Clause) -> Result<Says, NoMemory>
        requires range { (meaning self.old).greatest ≤ trail.now.vars }
        requires followed { AreFollowed trail.now.steps (followed self.old) }
        ensures given { IfOk result
            (λ says. says ≡ Says.Clause → IsGiven (meaning self.old) trail.now out.new) }
        ensures followed { AreFollowed trail.now.steps (followed self.new) }
        ensures same { MeansTheSame (meaning self.old) (meaning self.new) };

    /// Says whether a total assignment is a model. It may learn `limit` clauses for that.
    fn complete_check(&mut self, trail: &Trail, out: &mut Clause, limit: u32) -> Check
        requires range { (meaning self.old).greatest ≤ trail.now.vars }
        requires followed { AreFollowed trail.now.steps (followed self.old) }
        requires total { IsTotal trail.now }
        requires needs { Meets (values_of trail.now) (meaning self.old).needs }
        requires some { 1 ≤ limit }
        ensures answer { IsChecked (meaning self.old) trail.now limit out.new result }
        ensures followed { AreFollowed trail.now.steps (followed self.new) }
        ensures same { MeansTheSame (meaning self.old) (meaning self.new) };

    /// Follows only assignments of the trail. It is called after each going back of the trail.
    fn undo(&mut self, trail: &Trail)
        requires range { (meaning self.old).greatest ≤ trail.now.vars }
        requires back { HasGoneBack trail.now (followed self.old) }
        ensures followed { AreFollowed trail.now.steps (followed self.new) }
        ensures same { MeansTheSame (meaning self.old) (meaning self.new) };
}
