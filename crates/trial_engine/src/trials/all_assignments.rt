// The other way to an answer: all assignments are tried. An assignment is a bit pattern, of which
// the lowest bit says whether variable 1 is true.
use assumption_engine::Answer;
use clause_store::{Clause, Lit, Trail, Value, Var};

/// Whether an answer is one that all assignments bear out, where models must meet these clauses. No
/// answer that comes for having counted is.
pub fn is_right(trail: &Trail, must: &[Clause], assumed: &[Lit], answer: &Answer) -> bool {
    match answer {
        Answer::Model => is_met_on(trail, must, assumed),
        Answer::Core(core) => is_core(trail.vars(), must, assumed, core.as_slice()),
        Answer::SpentInside { .. } => is_met_on(trail, must, assumed),
        _ => false,
    }
}

/// Whether the literals are assumed, and no assignment that meets the clauses makes all true.
fn is_core(vars: u32, must: &[Clause], assumed: &[Lit], core: &[Lit]) -> bool {
    are_among(core, assumed) && !can_be_met(vars, must, core)
}

/// Whether a trail has all variables and meets clauses and literals.
fn is_met_on(trail: &Trail, must: &[Clause], lits: &[Lit]) -> bool {
    let total = trail.steps().len() == trail.vars() as usize;
    total && is_met_by(pattern_of(trail), must, lits)
}

/// The variables that are true on a trail.
fn pattern_of(trail: &Trail) -> u32 {
    let mut pattern = 0;
    for var in 0..trail.vars() {
        if trail.value(Var(var + 1).positive()) == Value::Yes {
            pattern |= 1u32.checked_shl(var).unwrap_or(0);
        }
    }
    pattern
}

/// Whether some assignment meets clauses and literals.
pub fn can_be_met(vars: u32, must: &[Clause], lits: &[Lit]) -> bool {
    for pattern in 0..1u32.checked_shl(vars).unwrap_or(0) {
        if is_met_by(pattern, must, lits) {
            return true;
        }
    }
    false
}

/// Whether an assignment meets clauses and literals.
fn is_met_by(pattern: u32, must: &[Clause], lits: &[Lit]) -> bool {
    for clause in must {
        if !some_true(pattern, clause.as_slice()) {
            return false;
        }
    }
    all_true(pattern, lits)
}

/// Whether an assignment makes some literal true.
fn some_true(pattern: u32, lits: &[Lit]) -> bool {
    for lit in lits {
        if is_true_by(pattern, *lit) {
            return true;
        }
    }
    false
}

/// Whether an assignment makes all literals true.
fn all_true(pattern: u32, lits: &[Lit]) -> bool {
    for lit in lits {
        if !is_true_by(pattern, *lit) {
            return false;
        }
    }
    true
}

/// Whether an assignment makes a literal true.
fn is_true_by(pattern: u32, lit: Lit) -> bool {
    let place = lit.var().0.saturating_sub(1);
    let bit = pattern.checked_shr(place).unwrap_or(0) % 2;
    (bit == 1) != lit.is_negated()
}

/// Whether each literal is one of `assumed`.
fn are_among(lits: &[Lit], assumed: &[Lit]) -> bool {
    for lit in lits {
        if !assumed.contains(lit) {
            return false;
        }
    }
    true
}
