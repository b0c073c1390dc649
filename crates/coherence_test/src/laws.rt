// Laws about the definitions. Each function has an empty body, and its contract is the law.
ghost use Rattle.coherence_test.specs.Laws.{FoundedModelsAreAnswerSets, LocalClausesHold};
ghost use Rattle.coherence_test.specs.Laws.{MinimalModelsAreAnswerSets, SpentWithinIsSpent};

/// Without disjunctive rules a founded model is an answer set.
pub fn founded_models_are_answer_sets()
    ensures { FoundedModelsAreAnswerSets }
{}

/// With any rules a minimal model is an answer set.
pub fn minimal_models_are_answer_sets()
    ensures { MinimalModelsAreAnswerSets }
{}

/// The units of a spent test inside a set make a spent test.
pub fn spent_within_is_spent()
    ensures { SpentWithinIsSpent }
{}

/// Local clauses hold in each assignment that extends an answer set.
pub fn local_clauses_hold()
    ensures { LocalClausesHold }
{}
