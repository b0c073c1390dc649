//! What one worker does in rounds, each by one test whether some answer set shows what the job asks
//! about.
#![tactic(auto)]

mod asking;
mod chunk_test;
mod chunks;
mod disjunctions;
mod facts;
mod gains;
mod job_test;
mod jobs;
mod kept;
mod laws;
mod links;
mod literals;
mod marks;
mod outcome;
mod reduce_test;
mod rounds;
mod telling;
mod worker;

pub use chunk_test::chunk_told;
pub use chunks::Step;
pub use disjunctions::disjunction;
pub use kept::{Begun, Kept};
pub use laws::{
    chunk_is_answered, coherence_is_answered, disjunction_is_of, part_answers, reduce_is_answered,
    round_is, spent_is, tests_compose,
};
pub use literals::{named_in, same_literal, test_literals};
pub use outcome::Outcome;
pub use telling::{coherence_told, reduce_told, single_told};
pub use worker::Worker;
