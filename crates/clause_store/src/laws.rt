// The laws of closure, units and trails, for the crates above. They do nothing when they run.
ghost use Rattle.clause_store.specs.Laws.{ClosureGrows, RefutingGrows, AbsorbingGrows};
ghost use Rattle.clause_store.specs.Laws.{ContainingIsAbsorbed, UnitsDiffer, UnitsGrow};
ghost use Rattle.clause_store.specs.Laws.{ClosureHolds, RefutedFollows, TrailStays, TotalMeans};
ghost use Rattle.clause_store.specs.Laws.{ValuesAfterBack, FrontAfterBack, BackTwice};
ghost use Rattle.clause_store.specs.UnitLaws.{UnitAmongFewer, UnitsAmongFewer, UnitsGrowInStore};
ghost use Rattle.clause_store.specs.UnitLaws.{UnitsSplit, UnitsAreFew};
ghost use Rattle.clause_store.specs.HistoryLaws.{HistoryHasUnits, HistoryIsRefuted, HistoryHolds};
ghost use Rattle.clause_store.specs.HistoryLaws.{HistoriesCompose, HistoriesAdd, HistoryTakesGiven};
ghost use Rattle.clause_store.specs.HistoryLaws.{HistoryTakesCounted};
ghost use Rattle.clause_store.specs.Laws.{HoldsInFront, MeetsInFront};
ghost use Rattle.clause_store.specs.Laws.{ValuesStay, ForcesAfterBack};
ghost use Rattle.clause_store.specs.Laws.{FalseAtZero, ConflictAtZero};
ghost use Rattle.clause_store.specs.ProgressLaws.{ProgressIsBounded, ProgressRises};
ghost use Rattle.clause_store.specs.ProgressLaws.{ProgressRisesAfterBack, PresentAfterBack};
ghost use Rattle.clause_store.specs.FollowedLaws.{FollowedWithMore, FollowedAfterBack};
ghost use Rattle.clause_store.specs.FollowedLaws.{FollowedHasGoneBack, GoneBackFurther};

/// The closure only grows with the clauses and with the literals.
pub fn closure_grows()
    ensures { ClosureGrows }
{}

/// What is refuted stays refuted by more clauses and from more literals.
pub fn refuting_grows()
    ensures { RefutingGrows }
{}

/// What is absorbed stays absorbed by more clauses.
pub fn absorbing_grows()
    ensures { AbsorbingGrows }
{}

/// A clause that has all literals of one of the clauses is absorbed.
pub fn containing_is_absorbed()
    ensures { ContainingIsAbsorbed }
{}

/// No clause of a list of units has all literals of an earlier one.
pub fn units_differ()
    ensures { UnitsDiffer }
{}

/// A unit beside all that came before it makes a list of units longer.
pub fn units_grow()
    ensures { UnitsGrow }
{}

/// A unit beside more clauses is one beside fewer of them.
pub fn unit_among_fewer()
    ensures { UnitAmongFewer }
{}

/// Units over more clauses are units over fewer of them.
pub fn units_among_fewer()
    ensures { UnitsAmongFewer }
{}

/// A unit beside a store that has the base and the units so far makes the list of units longer.
pub fn units_grow_in_store()
    ensures { UnitsGrowInStore }
{}

/// The later ones of a list of units are units over the base with the earlier ones, and the other
/// way round.
pub fn units_split()
    ensures { UnitsSplit }
{}

/// Units over the variables 1 to v are fewer than 3 to the power v.
pub fn units_are_few()
    ensures { UnitsAreFew }
{}

/// What propagation gives from true literals is true.
pub fn closure_holds()
    ensures { ClosureHolds }
{}

/// A clause whose negated literals are refuted follows.
pub fn refuted_follows()
    ensures { RefutedFollows }
{}

/// A clause that is added leaves a trail of the store one.
pub fn trail_stays()
    ensures { TrailStays }
{}

/// The assignment of a total trail makes just the literals true that are true on the trail.
pub fn total_means()
    ensures { TotalMeans }
{}

/// After going back to a level a literal that was assigned at it or before has the value that it
/// had, its variable the level, and any other literal is unset.
pub fn values_after_back()
    ensures { ValuesAfterBack }
{}

/// What stays on a trail after going back is a front of it.
pub fn front_after_back()
    ensures { FrontAfterBack }
{}

/// Going back and then further back is going back to the lower level at once.
pub fn back_twice()
    ensures { BackTwice }
{}

/// The counted clauses of a history are units over the clauses of the beginning.
pub fn history_has_units()
    ensures { HistoryHasUnits }
{}

/// Each counted clause of a history is refuted by the clauses of the beginning, given clauses and
/// those counted before it.
pub fn history_is_refuted()
    ensures { HistoryIsRefuted }
{}

/// Where the clauses of the beginning and the given ones hold, all clauses of a history hold.
pub fn history_holds()
    ensures { HistoryHolds }
{}

/// One history after another is a history, and each front and rest of a history is one.
pub fn histories_compose()
    ensures { HistoriesCompose }
{}

/// The clauses of two histories one after another are those of the first and then those of the
/// second, and likewise the counted and the given ones.
pub fn histories_add()
    ensures { HistoriesAdd }
{}

/// A given clause makes a history longer.
pub fn history_takes_given()
    ensures { HistoryTakesGiven }
{}

/// A counted clause that is new work beside all clauses that are there makes a history longer.
pub fn history_takes_counted()
    ensures { HistoryTakesCounted }
{}

/// A clause over the variables 1 to v holds in an assignment exactly where it holds in its front of
/// v + 1 values.
pub fn holds_in_front()
    ensures { HoldsInFront }
{}

/// An assignment meets clauses over the variables 1 to v exactly where its front of v + 1 values
/// does.
pub fn meets_in_front()
    ensures { MeetsInFront }
{}

/// A literal with a value keeps it when assignments come last, and its variable keeps its level.
pub fn values_stay()
    ensures { ValuesStay }
{}

/// A clause that forces a literal does so after going back to a level by which its other literals
/// were assigned.
pub fn forces_after_back()
    ensures { ForcesAfterBack }
{}

/// A clause that is false by the assignments of level 0 holds in no assignment that meets the
/// clauses of the trail.
pub fn false_at_zero()
    ensures { FalseAtZero }
{}

/// A conflict while the trail is at level 0 means that no assignment meets the clauses.
pub fn conflict_at_zero()
    ensures { ConflictAtZero }
{}

/// Progress on a trail is less than a bound that its number of variables gives.
pub fn progress_is_bounded()
    ensures { ProgressIsBounded }
{}

/// Where there is no conflict, progress rises when assignments come last or a conflict is found.
pub fn progress_rises()
    ensures { ProgressRises }
{}

/// After a conflict, progress rises when the trail goes back to a lower level and there assignments
/// come last or again a conflict is found.
pub fn progress_rises_after_back()
    ensures { ProgressRisesAfterBack }
{}

/// Going back to a level that there is makes it the present one.
pub fn present_after_back()
    ensures { PresentAfterBack }
{}

/// A followed front of a trail stays one when assignments come last.
pub fn followed_with_more()
    ensures { FollowedWithMore }
{}

/// Where followed assignments have gone back, those that are left are followed: as many as the
/// trail has.
pub fn followed_after_back()
    ensures { FollowedAfterBack }
{}

/// What is followed has gone back to the present level.
pub fn followed_has_gone_back()
    ensures { FollowedHasGoneBack }
{}

/// What has gone back to a level has gone back when the trail goes back further.
pub fn gone_back_further()
    ensures { GoneBackFurther }
{}
