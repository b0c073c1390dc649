// Laws of printing and reading. They hold of the definitions, so there is nothing to run.
ghost use Rattle.lparse_reader.specs.TextLaws.{TextReadsBack, ReadingGivesBack, TextTellsProgram};
ghost use Rattle.lparse_reader.specs.TextLaws.{EachHasOneOutcome};

/// The canonical text of a program reads as that program, and no other program has it.
pub fn text_reads_back()
    ensures reads { TextReadsBack }
    ensures gives { ReadingGivesBack }
    ensures tells { TextTellsProgram }
{}

/// Each text of at most 67,108,864 bytes has a reading or a refusal, never both, and each is the
/// only one.
pub fn each_text_has_one_outcome()
    ensures { EachHasOneOutcome }
{}
