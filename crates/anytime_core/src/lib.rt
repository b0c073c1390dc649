//! The machine of events: actors that report which candidates are consequences and which aren't,
//! tell each other clauses, and see what others told. It is the pure model of the shared board and
//! of the shared clauses, with the laws that hold after every list of its events.
#![tactic(auto)]

mod actor;
mod actors;
mod event;
mod laws;
mod machine;
mod row;
mod showing;

pub use actor::Actor;
pub use event::Event;
pub use laws::{every_state_is_sound, knowledge_only_grows, normal_bounds_are_the_programs};
pub use machine::Core;
pub use row::{row_length, words_over, zeros};
pub use showing::{show_in_bits, show_out_bits};
