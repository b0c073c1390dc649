//! Which budgets no call spends: those of at least 3 to the power of the number of variables.
#![tactic(auto)]

mod laws;

pub use laws::{asks_spend_little, parts_spend_little, rounds_spend_little, tests_spend_little};
