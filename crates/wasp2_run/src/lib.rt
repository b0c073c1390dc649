//! One run of the program: words and a source in, a report and a status out.
#![tactic(auto)]

mod host;
mod refusal_line;
mod running;
mod top;

pub use host::run_here;
pub use query_run::Ended;
pub use running::run_one;
pub use top::run;
