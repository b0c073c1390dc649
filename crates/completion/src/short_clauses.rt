// Clauses of one literal and of two.
ghost use Rattle.std.specs.Prelude.{◌≤◌, [], ◌∷◌, map, All};
ghost use Rattle.clause_store.specs.Clause.{variable};
ghost use Rattle.normal_program.specs.Clauses.{positive, negative, alone, cleaned};
ghost use Rattle.completion.specs.Filling.{Adds, IsVar};

use crate::draft::{Added, Draft};
use clause_store::{Lit, Store, Var};

/// Adds the clause of one literal.
pub fn add_alone(draft: &mut Draft, store: &mut Store, lit: Lit) -> Added
    requires { 1 ≤ variable lit }
    ensures { Adds result store.old store.new (cleaned (alone lit ∷ [])) }
{
    draft.start(lit)?;
    draft.add_to(store)
}

/// Adds the clause of two literals.
pub fn add_two(draft: &mut Draft, store: &mut Store, one: Lit, two: Lit) -> Added
    requires one { 1 ≤ variable one }
    requires two { 1 ≤ variable two }
    ensures { Adds result store.old store.new (cleaned ((one ∷ two ∷ []) ∷ [])) }
{
    draft.start(one)?;
    draft.push(two)?;
    draft.add_to(store)
}

/// Adds the clause of each atom alone.
pub fn add_true(draft: &mut Draft, store: &mut Store, atoms: &[u32]) -> Added
    requires { All IsVar atoms.now }
    ensures { Adds result store.old store.new
        (cleaned (map (λ atom. alone (positive atom)) atoms.now)) }
{
    for atom in atoms {
        add_alone(draft, store, Var(*atom).positive())?;
    }
    Ok(())
}

/// Adds the clause of the negation of each atom alone.
pub fn add_false(draft: &mut Draft, store: &mut Store, atoms: &[u32]) -> Added
    requires { All IsVar atoms.now }
    ensures { Adds result store.old store.new
        (cleaned (map (λ atom. alone (negative atom)) atoms.now)) }
{
    for atom in atoms {
        add_alone(draft, store, Var(*atom).negative())?;
    }
    Ok(())
}
