//! What steers a search by conflicts: the order of its decisions, when it restarts, and which
//! assumed literal is next.
#![tactic(auto)]

mod activity_heap;
mod assumption_places;
mod decision_order;
pub mod laws;
mod level_counter;
mod restart_pace;
mod sought;
#[cfg(test)]
mod tests;

pub use assumption_places::AssumptionPlaces;
pub use decision_order::{DecisionOrder, is_total};
pub use level_counter::LevelCounter;
pub use restart_pace::RestartPace;
