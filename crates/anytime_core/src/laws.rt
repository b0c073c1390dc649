// The laws of the machine. Each function has an empty body, and its contract is the law.
ghost use Rattle.anytime_core.specs.Laws.{StaysSound, AlwaysEncloses, EventsKeep, PairsNarrow};
ghost use Rattle.anytime_core.specs.Laws.{ReportsAreHeld, ToldHaveBoth, EnclosesTheProgram};

/// After every list of legal events from the opening the machine is sound: its words are true, each
/// clause of its log holds in every answer set, and what an actor has seen of the log is a front of
/// it (`sound`). So each actor's pair encloses the consequences (`encloses`).
pub fn every_state_is_sound()
    ensures sound { StaysSound }
    ensures encloses { AlwaysEncloses }
{}

/// Legal events leave a sound machine sound and make it a later one: no place of the log changes,
/// and no actor forgets what it has seen (`keep`). So each actor's pair lies within its earlier
/// pairs (`narrow`) and holds its reports (`reports`), and after Copy and Meet the actor that was
/// told has a pair within the pairs of both (`told`).
pub fn knowledge_only_grows()
    ensures keep { EventsKeep }
    ensures narrow { PairsNarrow }
    ensures reports { ReportsAreHeld }
    ensures told { ToldHaveBoth }
{}

/// What encloses the consequences of a normal form encloses those of its program.
pub fn normal_bounds_are_the_programs()
    ensures { EnclosesTheProgram }
{}
