// Why a text isn't a report.
ghost use Rattle.std.specs.Prelude.{◌≡◌};
ghost use Rattle.report_reader.specs.declared.report_error.ReportError.TheVariants.{NoMemory};

use report::Line;
use std::alloc::{AllocError, AllocFailed};
use thiserror::Error;

/// Why no lines were read.
#[derive(Clone, Copy, Debug, PartialEq, Eq, Error)]
pub enum ReportError {
    /// The line of this number, from 1, is the first that is no line of a report.
    #[error("line {0} is no line of a report")]
    NotALine(u32),
    /// Memory ran out.
    #[error("memory ran out")]
    NoMemory,
}

impl From<AllocError> for ReportError {
    ghost from_gives = { λ _ e. e ≡ NoMemory };

    fn from(_: AllocError) -> ReportError {
        ReportError::NoMemory
    }
}

impl From<AllocFailed<Line>> for ReportError {
    ghost from_gives = { λ _ e. e ≡ NoMemory };

    fn from(_: AllocFailed<Line>) -> ReportError {
        ReportError::NoMemory
    }
}
