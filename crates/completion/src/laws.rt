// Laws about the clauses for the parts of a set. The function has an empty body, and its contract
// is the law.
ghost use Rattle.std.specs.Prelude.{List, Bool};
ghost use Rattle.ground_program.specs.Meaning.{IsSetOver};
ghost use Rattle.normal_program.specs.declared.normal.Normal.{Normal};
ghost use Rattle.normal_program.specs.Limit.{IsNormal};
ghost use Rattle.completion.specs.Within.{HoldWithin, MakeSmaller};

/// The clauses for the parts of a set speak of its proper parts that keep the rules of the reduct.
pub fn inner_clauses_mean_smaller_sets()
    // Each of these parts, extended by the set, meets the clauses.
    ensures hold { (normal : Normal) (set : List Bool) → IsNormal normal
        → IsSetOver normal.atoms set → HoldWithin normal set }

    // Each assignment that meets the clauses and the meaning of the weight bodies is one of them.
    ensures make { (normal : Normal) (set : List Bool) → IsNormal normal
        → IsSetOver normal.atoms set → MakeSmaller normal set }
{}
