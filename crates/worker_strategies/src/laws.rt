// Laws about the definitions. Each function has an empty body, and its contract is the law.
ghost use Rattle.worker_strategies.specs.Laws.{ChunkFound, ChunkHalves, ChunkNone, ChunkProved};
ghost use Rattle.worker_strategies.specs.Laws.{CoherenceFound, CoherenceIsGrounded};
ghost use Rattle.worker_strategies.specs.Laws.{CoherenceRefuted, DisjunctionHas};
ghost use Rattle.worker_strategies.specs.Laws.{DisjunctionIsOver, DisjunctionOnce, PartAnswers};
ghost use Rattle.worker_strategies.specs.Laws.{PartIsOver, ReduceFound, ReduceNone, ReduceProved};
ghost use Rattle.worker_strategies.specs.Laws.{RoundsAre, TestIsSpent, TestsCompose};
ghost use Rattle.worker_strategies.specs.Laws.{WideTestIsSpent};

/// A set answers a Coherence job (`found`), and so does a core (`refuted`).
pub fn coherence_is_answered()
    ensures found { CoherenceFound }
    ensures refuted { CoherenceRefuted }
{}

/// What answers a Reduce job: a set (`found`), a core with the disjunction, by which all candidates
/// are proved (`proved`), or one with neither literals nor the disjunction (`none`).
pub fn reduce_is_answered()
    ensures found { ReduceFound }
    ensures proved { ReduceProved }
    ensures none { ReduceNone }
{}

/// What comes of one test of a chunk: a set that makes all test literals true answers the job
/// (`found`). By a core that names no candidate there is no answer set (`none`), one that names one
/// proves all that have its test literal (`proved`), and after one that names more a part of them,
/// from the first on, is a smaller chunk (`halves`).
pub fn chunk_is_answered()
    ensures found { ChunkFound }
    ensures none { ChunkNone }
    ensures proved { ChunkProved }
    ensures halves { ChunkHalves }
{}

/// A smaller chunk is one too (`over`), and what comes of its test comes of the whole one
/// (`comes`).
pub fn part_answers()
    ensures over { PartIsOver }
    ensures comes { PartAnswers }
{}

/// The disjunction of candidates has the test literal of each (`has`), is over atoms (`over`) and
/// has no variable twice (`once`).
pub fn disjunction_is_of()
    ensures has { DisjunctionHas }
    ensures over { DisjunctionIsOver }
    ensures once { DisjunctionOnce }
{}

/// Two tests of the same disjunction, or of none, one after the other, are one test.
pub fn tests_compose()
    ensures { TestsCompose }
{}

/// The units of a test that counted as many as its budget make a spent test, without a disjunction
/// (`plain`) and with one (`wide`). Those of a test of coherence are refuted by local clauses
/// (`grounded`).
pub fn spent_is()
    ensures plain { TestIsSpent }
    ensures wide { WideTestIsSpent }
    ensures grounded { CoherenceIsGrounded }
{}

/// What begins, tests and ends a round leaves what is ready for the next one, gains what is true,
/// and does what a round does.
pub fn round_is()
    ensures { RoundsAre }
{}
