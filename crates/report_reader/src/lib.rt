//! Reads the text of a report back into its lines.
#![tactic(auto)]

mod field_text;
mod laws;
mod line_text;
mod report_error;
mod set_text;
mod whole_text;
mod word_text;

pub use laws::text_tells_lines;
pub use report_error::ReportError;
pub use whole_text::read_report;
