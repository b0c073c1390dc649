//! The search over a theory: a search by conflicts that makes assumed literals true first.
#![tactic(auto)]

mod adding;
mod answer;
mod asking;
mod check;
mod defining;
mod ending;
mod engine;
mod giving;
mod learning;
mod marked_state;
mod marks;
mod steering;
mod task;
mod theory;
mod turning;

pub use answer::{Answer, Turn};
pub use check::Check;
pub use engine::Engine;
pub use theory::Theory;
