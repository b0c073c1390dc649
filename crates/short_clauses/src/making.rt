// The short clause of a few literals.
ghost use Rattle.std.specs.Prelude.{◌≡◌, ◌≢◌, ◌≤◌, ◌⊎◌, ◌∷◌, [], ℕ, length};
ghost use Rattle.std.specs.Prelude.{Contains};
ghost use Rattle.clause_store.specs.Clause.{IsClause};
ghost use Rattle.short_clauses.specs.Short.{AreAscending, IsShortOf};
ghost use Rattle.short_clauses.specs.Sorting.{AreInOrder, AreApart, HasSame};

use clause_store::{Lit, Short};

/// The short clause that has just these literals.
pub fn short_of(lits: &[Lit]) -> Short
    requires clause { IsClause lits.now }
    requires some { 1 ≤ length lits.now }
    requires few { length lits.now ≤ 3 }
    ensures { IsShortOf lits.now result }
{
    match lits {
        [one] => sorted(one.0, 0, 0),
        [one, two] => sorted(one.0, two.0, 0),
        [one, two, three] => sorted(one.0, two.0, three.0),
        _ => unreachable!(),
    }
}

/// The short clause of three codes, of which some may be 0.
fn sorted(one: u32, two: u32, three: u32) -> Short
    requires first { AreApart one two }
    requires second { AreApart one three }
    requires third { AreApart two three }
    ensures places { length result.lits ≡ 3 }
    ensures order { AreAscending result.lits }
    ensures same { HasSame (one ∷ two ∷ three ∷ []) result.lits }
{
    let (one, two) = in_order(one, two);
    let (two, three) = in_order(two, three);
    let (one, two) = in_order(one, two);
    Short {
        lits: [one, two, three],
    }
}

/// Two codes, the lesser first, and 0 last.
fn in_order(one: u32, two: u32) -> (u32, u32)
    requires { AreApart one two }
    ensures { AreInOrder one two result.0 result.1 }
{
    if one == 0 || (two != 0 && two < one) {
        (two, one)
    } else {
        (one, two)
    }
}
