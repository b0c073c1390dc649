// A law about the definitions. The function has an empty body, and its contract is the law.
ghost use Rattle.report_reader.specs.Laws.{TextTellsLines};

/// The text of lines tells the lines.
pub fn text_tells_lines()
    ensures { TextTellsLines }
{}
