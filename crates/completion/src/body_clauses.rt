// The clauses of conjunctive bodies.
ghost use Rattle.std.specs.Prelude.{◌≡◌, ◌≤◌, [], ◌∷◌, map, flat_map, All, OnOk};
ghost use Rattle.std.specs.Prelude.{if◌then◌else◌};
ghost use Rattle.clause_store.specs.Clause.{variable, negation};
ghost use Rattle.normal_program.specs.Body.{is_conjunctive};
ghost use Rattle.normal_program.specs.Clauses.{positive, negative, literals_of};
ghost use Rattle.normal_program.specs.Clauses.{all_clauses, body_clauses, numbered_bodies, cleaned};
ghost use Rattle.normal_program.specs.Range.{IsInRange};
ghost use Rattle.completion.specs.Filling.{Adds, IsVar};

use crate::draft::{Added, Draft};
use crate::short_clauses::add_two;
use clause_store::{Lit, Store, Var};
use item_list::NoMemory;
use normal_program::{BodyOf, Normal, Part, literal_of};

/// Adds the clauses of all conjunctive bodies.
pub fn add_bodies(normal: &Normal, draft: &mut Draft, store: &mut Store) -> Added
    requires { IsInRange normal.now }
    ensures { Adds result store.old store.new
        (cleaned (flat_map (body_clauses normal.now) (numbered_bodies normal.now))) }
{
    let mut lits = Vec::new(draft.allocator());
    for (number, body) in normal.bodies.as_slice().iter().enumerate() {
        let var = Var(normal.atoms + 1 + number as u32);
        add_body(draft, store, &mut lits, var, body)?;
    }
    Ok(())
}

// The clauses of a body, if it is conjunctive. The literals are made in `lits`.
fn add_body(
    draft: &mut Draft,
    store: &mut Store,
    lits: &mut Vec<Lit>,
    var: Var,
    body: &BodyOf,
) -> Added
    requires var { IsVar var.0 }
    requires parts { All (λ part. IsVar part.lit.atom) body.now.parts }
    ensures { Adds result store.old store.new (cleaned
        (if is_conjunctive body.now then all_clauses var.0 (literals_of body.now.parts) else [])) }
{
    if !body.is_conjunctive() {
        return Ok(());
    }
    read_literals(lits, body.parts.as_slice())?;
    define(draft, store, var, lits.as_slice())
}

// Makes the literals of a body.
fn read_literals(lits: &mut Vec<Lit>, parts: &[Part]) -> Result<(), NoMemory>
    requires { All (λ part. IsVar part.lit.atom) parts.now }
    ensures { OnOk result (lits.new.items ≡ literals_of parts.now) }
{
    lits.clear();
    for part in parts {
        lits.push(literal_of(part.lit))?;
    }
    Ok(())
}

/// The variable is true exactly where all literals are.
pub fn define(draft: &mut Draft, store: &mut Store, var: Var, lits: &[Lit]) -> Added
    requires var { IsVar var.0 }
    requires lits { All (λ lit. 1 ≤ variable lit) lits.now }
    ensures { Adds result store.old store.new (cleaned (all_clauses var.0 lits.now)) }
{
    imply_each(draft, store, var, lits)?;
    all_or_false(draft, store, var, lits)
}

// Where the variable is true, so is each literal.
fn imply_each(draft: &mut Draft, store: &mut Store, var: Var, lits: &[Lit]) -> Added
    requires var { IsVar var.0 }
    requires lits { All (λ lit. 1 ≤ variable lit) lits.now }
    ensures { Adds result store.old store.new
        (cleaned (map (λ lit. negative var.0 ∷ lit ∷ []) lits.now)) }
{
    for lit in lits {
        add_two(draft, store, var.negative(), *lit)?;
    }
    Ok(())
}

// Where all literals are true, so is the variable.
fn all_or_false(draft: &mut Draft, store: &mut Store, var: Var, lits: &[Lit]) -> Added
    requires var { IsVar var.0 }
    requires lits { All (λ lit. 1 ≤ variable lit) lits.now }
    ensures { Adds result store.old store.new
        (cleaned ((positive var.0 ∷ map negation lits.now) ∷ [])) }
{
    draft.start(var.positive())?;
    for lit in lits {
        draft.push(lit.negated())?;
    }
    draft.add_to(store)
}
