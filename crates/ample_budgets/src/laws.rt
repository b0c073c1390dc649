// Laws about what other crates' calls ensure. Each function has an empty body, and its contract is
// the laws.
ghost use Rattle.ample_budgets.specs.Laws.{AskSpendsLittle, AsksCount, NothingIsCounted};
ghost use Rattle.ample_budgets.specs.Laws.{PartsSpendLittle, RoundSpendsLittle};
ghost use Rattle.ample_budgets.specs.Laws.{RoundsKeepSelectors, TestSpendsLittle, TestsCount};

/// Questions to one engine alone count units over its variables (`begun`, `counted`), so an answer
/// Spent comes only where the limit is less than 3 to the power of their number (`spent`).
pub fn asks_spend_little()
    ensures begun { NothingIsCounted }
    ensures counted { AsksCount }
    ensures spent { AskSpendsLittle }
{}

/// Tests by one tester alone count units over its variables (`counted`), so an answer Spent or
/// SpentInside comes only where the limit is less than 3 to the power of their number (`spent`).
pub fn tests_spend_little()
    ensures counted { TestsCount }
    ensures spent { TestSpendsLittle }
{}

/// The test whether a set is minimal is spent only where the limit is less than 3 to the power of
/// the number of variables.
pub fn parts_spend_little()
    ensures { PartsSpendLittle }
{}

/// A round ends with a spent test only where the worker's budget is less than 3 to the power of the
/// number of variables (`spent`). It leaves no more disjunctions than there are selectors
/// (`selectors`).
pub fn rounds_spend_little()
    ensures selectors { RoundsKeepSelectors }
    ensures spent { RoundSpendsLittle }
{}
