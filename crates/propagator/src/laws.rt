// The laws of readiness, of propagation, of reasons and of the fixpoint, for the crates above. They
// do nothing when they run.
ghost use Rattle.propagator.specs.Laws.{ReadyWithMore, ReadyWithClause, ReadyWithAgain};
ghost use Rattle.propagator.specs.Laws.{ReadyWithNext, ReadyAfterRewind};
ghost use Rattle.propagator.specs.Laws.{ExtendingGoesOn, ReasonsHold};
ghost use Rattle.propagator.specs.Laws.{FixpointHasClosure, FixpointRefutesNone};
ghost use Rattle.propagator.specs.Laws.{FixpointAbsorbsNoUnit, TotalFixpointMeets};
ghost use Rattle.propagator.specs.Laws.{FixpointAbsorbsNoFalse, PropagationKeepsValues};
ghost use Rattle.propagator.specs.ProgressLaws.{ProgressByPropagation, ProgressByGoingBack};

/// A store, a trail and watches stay ready for propagation when assignments come last.
pub fn ready_with_more()
    ensures { ReadyWithMore }
{}

/// They stay ready when a clause is put into the store and attached.
pub fn ready_with_clause()
    ensures { ReadyWithClause }
{}

/// They stay ready when a clause of the store is attached once more.
pub fn ready_with_again()
    ensures { ReadyWithAgain }
{}

/// Where the first clauses of a store are attached and the next one is, that many and one are.
pub fn ready_with_next()
    ensures { ReadyWithNext }
{}

/// They stay ready when the trail goes back and the watches with it.
pub fn ready_after_rewind()
    ensures { ReadyAfterRewind }
{}

/// A run of propagation after another is one.
pub fn extending_goes_on()
    ensures { ExtendingGoesOn }
{}

/// On a trail of the store the literal of each reason is true, and its others are false.
pub fn reasons_hold()
    ensures { ReasonsHold }
{}

/// What unit propagation draws from literals that are true at a fixpoint is true there.
pub fn fixpoint_has_closure()
    ensures { FixpointHasClosure }
{}

/// Unit propagation refutes no literals that are true at a fixpoint.
pub fn fixpoint_refutes_none()
    ensures { FixpointRefutesNone }
{}

/// A clause that is a unit at a fixpoint of other clauses isn't absorbed by them.
pub fn fixpoint_absorbs_no_unit()
    ensures { FixpointAbsorbsNoUnit }
{}

/// The assignment of a total trail at a fixpoint meets the clauses.
pub fn total_fixpoint_meets()
    ensures { TotalFixpointMeets }
{}

/// A clause that has a literal and is false at a fixpoint of other clauses isn't absorbed by them.
pub fn fixpoint_absorbs_no_false()
    ensures { FixpointAbsorbsNoFalse }
{}

/// A literal with a value keeps it under propagation, and its variable keeps its level.
pub fn propagation_keeps_values()
    ensures { PropagationKeepsValues }
{}

/// A run of propagation that assigns something or finds a conflict makes progress.
pub fn progress_by_propagation()
    ensures { ProgressByPropagation }
{}

/// After a conflict, such a run on the trail that went back to a lower level makes progress, as
/// does a conflict that is there at once.
pub fn progress_by_going_back()
    ensures { ProgressByGoingBack }
{}
