// The clauses of rules.
ghost use Rattle.std.specs.Prelude.{◌≡◌, [], ◌∷◌, map, flat_map, All, if◌then◌else◌};
ghost use Rattle.normal_program.specs.Clauses.{positive, negative, is_choice, rule_clauses};
ghost use Rattle.normal_program.specs.Clauses.{cleaned};
ghost use Rattle.normal_program.specs.Range.{IsInRange};
ghost use Rattle.completion.specs.Filling.{Adds, IsVar};

use crate::draft::{Added, Draft};
use clause_store::{Store, Var};
use ground_program::Kind;
use normal_program::{Normal, NormalRule};

/// Adds the clauses of all rules that aren't choice rules.
pub fn add_rules(normal: &Normal, draft: &mut Draft, store: &mut Store) -> Added
    requires { IsInRange normal.now }
    ensures { Adds result store.old store.new
        (cleaned (flat_map (rule_clauses normal.now) normal.now.rules)) }
{
    for rule in normal.rules.as_slice() {
        add_rule(draft, store, Var(normal.atoms + 1 + rule.body), rule)?;
    }
    Ok(())
}

// The clause of a rule, if it isn't a choice rule.
fn add_rule(draft: &mut Draft, store: &mut Store, var: Var, rule: &NormalRule) -> Added
    requires var { IsVar var.0 }
    requires heads { All IsVar rule.now.heads }
    ensures { Adds result store.old store.new (cleaned
        (if is_choice rule.now.kind then []
        else (negative var.0 ∷ map positive rule.now.heads) ∷ [])) }
{
    if is_choice_rule(rule) {
        return Ok(());
    }
    add_heads(draft, store, var, rule.heads.as_slice())
}

/// Whether a rule is a choice rule.
pub fn is_choice_rule(rule: &NormalRule) -> bool
    ensures { result ≡ is_choice rule.now.kind }
{
    match rule.kind {
        Kind::Choice => true,
        Kind::Basic | Kind::Constraint | Kind::Weight | Kind::Disjunctive => false,
    }
}

// Where the body's variable is true, some head is.
fn add_heads(draft: &mut Draft, store: &mut Store, var: Var, heads: &[u32]) -> Added
    requires var { IsVar var.0 }
    requires heads { All IsVar heads.now }
    ensures { Adds result store.old store.new
        (cleaned ((negative var.0 ∷ map positive heads.now) ∷ [])) }
{
    draft.start(var.negative())?;
    for head in heads {
        draft.push(Var(*head).positive())?;
    }
    draft.add_to(store)
}
