// The completion of a normal form.
ghost use Rattle.std.specs.Prelude.{◌≡◌, ◌++◌, map, flat_map, OnOk, OnErr};
ghost use Rattle.clause_store.specs.Clause.{AreOver};
ghost use Rattle.clause_store.specs.Trail.{KeepsTrails};
ghost use Rattle.normal_program.specs.Normal.{greatest_body_var};
ghost use Rattle.normal_program.specs.Clauses.{base_clauses, body_clauses, numbered_bodies};
ghost use Rattle.normal_program.specs.Clauses.{rule_clauses, support_clause, atoms_of_normal};
ghost use Rattle.normal_program.specs.Clauses.{compute_clauses, cleaned, AreEntailed};
ghost use Rattle.normal_program.specs.Models.{MakeModels};
ghost use Rattle.normal_program.specs.Limit.{IsNormal};
ghost use Rattle.normal_program.specs.Range.{IsInRange};
ghost use Rattle.completion.specs.Filling.{Adds, GainsFirst};

use crate::body_clauses::add_bodies;
use crate::draft::{Added, Draft};
use crate::rule_clauses::add_rules;
use crate::short_clauses::{add_false, add_true};
use crate::support_clauses::add_supports;
use clause_store::Store;
use item_list::NoMemory;
use normal_program::Normal;
use std::alloc::Global;

/// Adds the base clauses of a normal form. After want of memory the store has the first of them.
pub fn complete(alloc: Global, normal: &Normal, store: &mut Store) -> Result<(), NoMemory>
    requires { IsNormal normal.now }
    ensures added { OnOk result (store.new ≡ store.old ++ base_clauses normal.now) }
    ensures some { OnErr result (GainsFirst store.old store.new (base_clauses normal.now)) }

    // After want of memory too, each trail of the store stays one.
    ensures trails { KeepsTrails store.old store.new }

    // The variables of the base clauses are those of atoms and bodies.
    ensures over { AreOver (greatest_body_var normal.now) (base_clauses normal.now) }

    // Each of them holds in every answer set. An assignment that meets them and the meaning of
    // the weight bodies is a model of all rules that meets the compute statement.
    ensures entailed { AreEntailed normal.now }
    ensures models { MakeModels normal.now }
{
    let mut draft = Draft::open(alloc);
    complete_whole(normal, &mut draft, store)
}

// All base clauses.
fn complete_whole(normal: &Normal, draft: &mut Draft, store: &mut Store) -> Added
    requires { IsInRange normal.now }
    ensures { Adds result store.old store.new (base_clauses normal.now) }
{
    add_program(normal, draft, store)?;
    add_compute(normal, draft, store)
}

// The clauses of bodies, of rules and of the support of atoms.
fn add_program(normal: &Normal, draft: &mut Draft, store: &mut Store) -> Added
    requires { IsInRange normal.now }
    ensures { Adds result store.old store.new
        (cleaned (flat_map (body_clauses normal.now) (numbered_bodies normal.now)
        ++ flat_map (rule_clauses normal.now) normal.now.rules
        ++ map (support_clause normal.now) (atoms_of_normal normal.now))) }
{
    add_bodies_and_rules(normal, draft, store)?;
    add_supports(normal, draft, store)
}

// The clauses of bodies and of rules.
fn add_bodies_and_rules(normal: &Normal, draft: &mut Draft, store: &mut Store) -> Added
    requires { IsInRange normal.now }
    ensures { Adds result store.old store.new
        (cleaned (flat_map (body_clauses normal.now) (numbered_bodies normal.now)
        ++ flat_map (rule_clauses normal.now) normal.now.rules)) }
{
    add_bodies(normal, draft, store)?;
    add_rules(normal, draft, store)
}

// The clauses of the compute statement.
fn add_compute(normal: &Normal, draft: &mut Draft, store: &mut Store) -> Added
    requires { IsInRange normal.now }
    ensures { Adds result store.old store.new (cleaned (compute_clauses normal.now)) }
{
    add_true(draft, store, normal.must.as_slice())?;
    add_false(draft, store, normal.must_not.as_slice())
}
