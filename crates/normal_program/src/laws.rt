// Laws about the definitions. Each function has an empty body, and its contract is the law.
ghost use Rattle.std.specs.Prelude.{◌≡◌};
ghost use Rattle.ground_program.specs.declared.program.Program.{Program};
ghost use Rattle.normal_program.specs.declared.normal.Normal.{Normal};
ghost use Rattle.clause_store.specs.Clause.{AreOver};
ghost use Rattle.normal_program.specs.Normal.{greatest_body_var};
ghost use Rattle.normal_program.specs.Clauses.{base_clauses, AreEntailed};
ghost use Rattle.normal_program.specs.Models.{MakeModels};
ghost use Rattle.normal_program.specs.Limit.{IsNormal};
ghost use Rattle.normal_program.specs.Laws.{LoopClausesAreEntailed, ClausesOfBodiesAreEntailed};
ghost use Rattle.normal_program.specs.Laws.{LocalClausesAreEntailed, RefutedAreEntailed};
ghost use Rattle.normal_program.specs.Laws.{GroundedAreEntailed, EntailedWithoutSelectors};
ghost use Rattle.normal_program.specs.Laws.{EntailedWithMoreSelectors, SelectorClausesAreEntailed};
ghost use Rattle.normal_program.specs.Laws.{WideUnitsAreUnits, WithoutSelectorsIsSpent};
ghost use Rattle.normal_program.specs.Range.{IsInRange};
ghost use Rattle.normal_program.specs.Normal.{IsNormalFormOf, SameBodies, SameAnswerSets};

/// A program has one normal form. So it is refused exactly where that has too many variables.
pub fn one_normal_form()
    ensures { (program : Program) (one two : Normal) → IsNormalFormOf one program
        → IsNormalFormOf two program
        → one ≡ two }
{}

/// A normal form means what its program means.
pub fn normal_form_means_the_program()
    ensures bodies { (normal : Normal) (program : Program) → IsNormalFormOf normal program
        → SameBodies normal program }
    ensures same { (normal : Normal) (program : Program) → IsNormalFormOf normal program
        → SameAnswerSets normal program }
{}

/// The atoms that a normal form names are its atoms, and its rules name its bodies.
pub fn normal_form_is_in_range()
    ensures { (normal : Normal) → IsNormal normal → IsInRange normal }
{}

/// The variables of the base clauses are those of atoms and bodies.
pub fn base_clauses_are_over_atoms_and_bodies()
    ensures { (normal : Normal) → IsNormal normal
        → AreOver (greatest_body_var normal) (base_clauses normal) }
{}

/// Each base clause holds in every answer set.
pub fn base_clauses_are_entailed()
    ensures { (normal : Normal) → IsNormal normal → AreEntailed normal }
{}

/// A total assignment that meets the base clauses and the meaning of the weight bodies is a model.
pub fn base_clauses_make_models()
    ensures { (normal : Normal) → IsNormal normal → MakeModels normal }
{}

/// Local clauses hold in every answer set, whatever selectors are in use: loop clauses, and clauses
/// that follow from one weight body.
pub fn local_clauses_are_entailed()
    ensures loops { LoopClausesAreEntailed }
    ensures bodies { ClausesOfBodiesAreEntailed }
    ensures local { LocalClausesAreEntailed }
{}

/// What unit propagation gives from entailed clauses and local ones is entailed. So the units of a
/// grounded test are.
pub fn grounded_is_entailed()
    ensures refuted { RefutedAreEntailed }
    ensures grounded { GroundedAreEntailed }
{}

/// The selectors that a clause hasn't don't matter to it: without selectors it is entailed with any
/// disjunctions or with none, and it stays entailed when more selectors come into use.
pub fn other_selectors_do_not_matter()
    ensures none { EntailedWithoutSelectors }
    ensures more { EntailedWithMoreSelectors }
{}

/// With the disjunctions of the selectors in use the clauses of these are entailed. The units of a
/// wide spent test are units over the base clauses, and with no selector in use it is a spent test.
pub fn wide_tests_count_units()
    ensures selectors { SelectorClausesAreEntailed }
    ensures units { WideUnitsAreUnits }
    ensures spent { WithoutSelectorsIsSpent }
{}
