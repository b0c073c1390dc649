// The words of lines and refusals.
ghost use Rattle.std.specs.Prelude.{◌≡◌};
ghost use Rattle.report_reader.specs.Reading.{IsReading, word_at, why_at};

use report::Why;

/// The word that begins a line. Each form of line has its own.
#[derive(Clone, Copy, Debug, PartialEq, Eq)]
pub enum Word {
    /// `ANSWER`
    Answer,
    /// `IN`
    In,
    /// `OUT`
    Out,
    /// `PAIR`
    Pair,
    /// `WATCH`
    Watch,
    /// `OPEN`
    Open,
    /// `UNKNOWN`
    Unknown,
    /// `COMPLETE`
    Complete,
    /// `PARTIAL`
    Partial,
    /// `INCOHERENT`
    Incoherent,
    /// `NOMEMORY`
    NoMemory,
    /// `REFUSED`
    Refused,
}

/// The word of this text.
#[tactic(auto, unfolding(crate::specs::Reading::word_at))]
pub fn word_of(text: &[u8]) -> Option<Word>
    ensures { IsReading (λ x. x) result (word_at text.now) }
{
    match text {
        b"ANSWER" => Some(Word::Answer),
        b"IN" => Some(Word::In),
        b"OUT" => Some(Word::Out),
        b"PAIR" => Some(Word::Pair),
        b"WATCH" => Some(Word::Watch),
        b"OPEN" => Some(Word::Open),
        b"UNKNOWN" => Some(Word::Unknown),
        b"COMPLETE" => Some(Word::Complete),
        b"PARTIAL" => Some(Word::Partial),
        b"INCOHERENT" => Some(Word::Incoherent),
        b"NOMEMORY" => Some(Word::NoMemory),
        b"REFUSED" => Some(Word::Refused),
        _ => None,
    }
}

/// The refusal whose word this is.
#[tactic(auto, unfolding(crate::specs::Reading::why_at))]
pub fn why_of_text(text: &[u8]) -> Option<Why>
    ensures { IsReading (λ x. x) result (why_at text.now) }
{
    if text == b"NotANumber".as_slice() {
        return Some(Why::NotANumber);
    }
    if text == b"UnknownKind".as_slice() {
        return Some(Why::UnknownKind);
    }
    if text == b"MinimizeRule".as_slice() {
        return Some(Why::MinimizeRule);
    }
    if text == b"AtomZero".as_slice() {
        return Some(Why::AtomZero);
    }
    if text == b"NumberTooLarge".as_slice() {
        return Some(Why::NumberTooLarge);
    }
    if text == b"NegativeCount".as_slice() {
        return Some(Why::NegativeCount);
    }
    if text == b"MissingMark".as_slice() {
        return Some(Why::MissingMark);
    }
    if text == b"ExternalSection".as_slice() {
        return Some(Why::ExternalSection);
    }
    if text == b"NameMissing".as_slice() {
        return Some(Why::NameMissing);
    }
    if text == b"EndOfInput".as_slice() {
        return Some(Why::EndOfInput);
    }
    if text == b"TrailingText".as_slice() {
        return Some(Why::TrailingText);
    }
    if text == b"TooLong".as_slice() {
        return Some(Why::TooLong);
    }
    if text == b"ReadFault".as_slice() {
        return Some(Why::ReadFault);
    }
    if text == b"TooManyVariables".as_slice() {
        return Some(Why::TooManyVariables);
    }
    if text == b"Words".as_slice() {
        return Some(Why::Words);
    }
    None
}
