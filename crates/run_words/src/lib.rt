//! The words of a call, and the task that they order.
#![tactic(auto)]

mod choice;
mod chosen;
mod error;
mod laws;
mod task;
mod words;

pub use error::WordsError;
pub use laws::{one_task_is_ordered, ordered_tasks_are_in_range};
pub use task::{Settings, Task};
pub use words::read_words;
