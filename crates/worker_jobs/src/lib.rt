//! What a worker is asked in a round, and what it answers.
#![tactic(auto)]

mod gain;
mod job;
mod laws;
mod literals;

pub use gain::{Gain, RoundEnd};
pub use job::{Job, Strategy};
pub use laws::{later_tests_are_apart, shown_is_not_proved};
pub use literals::test_literal;
