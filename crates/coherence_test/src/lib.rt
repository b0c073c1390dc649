//! Tests of what the answer sets of a normal form meet, and the theory behind them: weight bodies,
//! then founding, and whether a set is minimal.
#![tactic(auto)]

mod asked;
mod laws;
mod search;
mod sharing;
mod telling;
mod tester;
mod theory;

pub use asked::{Asked, Core, Tested};
pub use laws::{
    founded_models_are_answer_sets, local_clauses_hold, minimal_models_are_answer_sets,
    spent_within_is_spent,
};
pub use tester::Tester;
pub use theory::AnswerSetTheory;
