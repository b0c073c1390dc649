// When a search starts anew from level 0: where the clauses that it learned last have more levels
// than usual.

ghost use Rattle.std.specs.Prelude.{◌≤◌};

/// Averages are counted in parts of a level, so many in one.
const PARTS: u64 = 1 << 16;

/// Over how many conflicts the fast average goes.
const FEW: u64 = 32;

/// Over how many conflicts the slow average goes.
const MANY: u64 = 8192;

/// A restart comes after at least so many conflicts.
const FEWEST_CONFLICTS: u32 = 50;

/// A restart comes where the fast average is more than 23 / 20 of the slow one.
const FAST_SHARE: u64 = 23;

const SLOW_SHARE: u64 = 20;

/// How many levels learned clauses have: a fast and a slow average, and how many conflicts there
/// were, in all and since the last restart.
#[derive(Debug, Default, Drop)]
pub struct RestartPace {
    fast: u64,
    slow: u64,
    conflicts: u64,
    since_restart: u32,
}

impl RestartPace {
    /// No conflict yet.
    pub fn open() -> RestartPace {
        RestartPace::default()
    }

    /// A clause with that many levels was learned.
    pub fn conflict(&mut self, levels: u32) {
        self.conflicts = self.conflicts.saturating_add(1);
        self.since_restart = self.since_restart.saturating_add(1);
        self.fast = nearer(self.fast, levels, self.conflicts.min(FEW));
        self.slow = nearer(self.slow, levels, self.conflicts.min(MANY));
    }

    /// Whether the search is to start anew.
    pub fn wants_restart(&self) -> bool {
        FEWEST_CONFLICTS <= self.since_restart && self.slow / SLOW_SHARE < self.fast / FAST_SHARE
    }

    /// The search starts anew.
    pub fn restarted(&mut self) {
        self.since_restart = 0;
    }
}

/// The average with one more number, which has a weight of 1 in `weight`. Of the first few numbers
/// it is the plain average.
fn nearer(average: u64, levels: u32, weight: u64) -> u64
    requires { 1 ≤ weight }
{
    let new = u64::from(levels) * PARTS;
    (average - average / weight).saturating_add(new / weight)
}
