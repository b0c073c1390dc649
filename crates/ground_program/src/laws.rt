// Laws about the definitions. Each function has an empty body, and its contract is the law.
ghost use Rattle.std.specs.Prelude.{◌≡◌, ◌≢◌, ◌↔◌, ℕ, Bool, List, false, true, length, replicate};
ghost use Rattle.std.specs.Prelude.{All};
ghost use Rattle.ground_program.specs.declared.program.Mode.{Mode};
ghost use Rattle.ground_program.specs.declared.program.Program.{Program};
ghost use Rattle.ground_program.specs.declared.program.Rule.{Rule};
ghost use Rattle.ground_program.specs.declared.pair.Pair.{Pair};
ghost use Rattle.ground_program.specs.Meaning.{IsIn, IsAnswerSet, KeepsAll, SomeFails, IsPart};
ghost use Rattle.ground_program.specs.Meaning.{HasNoChoice};
ghost use Rattle.ground_program.specs.Bounds.{Encloses, IsWithin};

/// The pair that says nothing yet encloses the consequences of every program.
pub fn opening_pair_encloses()
    ensures { (program : Program) (mode : Mode) (pair : Pair)
        → pair.lower ≡ replicate (length program.names) false
        → pair.upper ≡ replicate (length program.names) true
        → Encloses program mode pair }
{}

/// Each pair lies within itself.
pub fn within_is_reflexive()
    ensures { (pair : Pair) → IsWithin pair pair }
{}

/// A pair within a pair that lies within a third lies within the third.
pub fn within_is_transitive()
    ensures { (narrow middle wide : Pair) → IsWithin narrow middle → IsWithin middle wide
        → IsWithin narrow wide }
{}

/// Some rule fails exactly where not all are kept.
pub fn some_rule_fails()
    ensures { (by set : List Bool) (rules : List Rule)
        → (SomeFails by set rules ↔ ¬ KeepsAll by set rules) }
{}

/// In a program without choice rules no answer set is a proper part of another. With choice
/// rules one may be: the rule that allows an atom has the answer sets without and with it.
pub fn answer_sets_are_least()
    ensures { (program : Program) (one two : List Bool)
        → HasNoChoice program.rules → IsAnswerSet program one → IsAnswerSet program two
        → IsPart one two → one ≡ two }
{}
