//! Reads ground programs in the numeric format, and names the first thing that is wrong with a
//! text. Prints them again.
#![tactic(auto)]

mod compute_text;
mod fault;
mod printing;
mod rule_text;
mod source_text;
mod symbol_text;
mod text_laws;
mod token_text;
mod whole_text;

pub use fault::{ReadError, TextFault};
pub use ground_program::Program;
pub use printing::print_program;
pub use source_text::read_program;
pub use text_laws::{each_text_has_one_outcome, text_reads_back};
pub use whole_text::parse;
