// The laws of what is learned, for the crates above. They do nothing when they run.
ghost use Rattle.conflict_learning.specs.Laws.{BackIsLower, LearnedIsAUnit};

/// The level to go back to is lower than the present one. After going back there, a learned clause
/// forces its asserting literal.
pub fn learned_is_a_unit_after_going_back()
    ensures lower { BackIsLower }
    ensures unit { LearnedIsAUnit }
{}
