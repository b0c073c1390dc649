// Laws about the definitions. Each function has an empty body, and its contract is the law.
ghost use Rattle.worker_jobs.specs.Laws.{LaterTestsAreApart, ShownIsNotProved, TestLiteralShows};

/// A test whose units are worth counting beside clauses that have the base clauses and the units of
/// an earlier test is apart from that one.
pub fn later_tests_are_apart()
    ensures { LaterTestsAreApart }
{}

/// An answer set shows a candidate just where its extension makes the test literal true (`shows`).
/// What is shown isn't proved (`apart`).
pub fn shown_is_not_proved()
    ensures shows { TestLiteralShows }
    ensures apart { ShownIsNotProved }
{}
