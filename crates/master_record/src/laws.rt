// The laws of a run and of its lines. Each function has an empty body, and its contract is the
// laws.
ghost use Rattle.master_record.specs.Laws.{BeginsWithNoLine, MergesAreTold, TakenPairsAreTold};
ghost use Rattle.master_record.specs.Laws.{JobsTellNothing, SizesAreTold, SettlingResizes};
ghost use Rattle.master_record.specs.Laws.{CompleteReportsAreLegal, IncoherentReportsAreLegal};
ghost use Rattle.master_record.specs.Laws.{UnknownReportsAreLegal, MergedLinesAreTrue};
ghost use Rattle.master_record.specs.Laws.{MergedAnswersAreThere, TrueLinesEnclose};
ghost use Rattle.master_record.specs.Laws.{TrueLinesAreOver, OpeningsAreKept, TrueLinesAreKept};
ghost use Rattle.master_record.specs.Laws.{WorkersAreKept, SpentTestsAreKept, NewsAreGiven};
ghost use Rattle.master_record.specs.Laws.{OthersAreDropped, SortedTestsAscend, WritesAddOne};
ghost use Rattle.master_record.specs.Laws.{WritesTakeOne};

/// The lines that a record gives, one call after the other, may begin a report on each program with
/// this normal form, and the record knows what they say (`IsToldBy`): there is no line at the opening
/// (`begins`), those of a call go behind those before (`merges`, `takes`), jobs have none (`jobs`),
/// and a PAIR line with the record's sizes may go behind them where they aren't those of the last
/// PAIR line (`sizes`).
pub fn lines_are_told()
    ensures begins { BeginsWithNoLine }
    ensures merges { MergesAreTold }
    ensures takes { TakenPairsAreTold }
    ensures jobs { JobsTellNothing }
    ensures sizes { SizesAreTold }
{}

/// Where the record knows the lines of a run, COMPLETE behind them makes a legal report if the record
/// is finished (`complete`), INCOHERENT if a gain said that there is no answer set (`incoherent`),
/// and UNKNOWN with PARTIAL if no answer set was given (`unknown`). Behind lines that settle
/// something, a PAIR line may stand (`resized`).
pub fn reports_end()
    ensures complete { CompleteReportsAreLegal }
    ensures incoherent { IncoherentReportsAreLegal }
    ensures unknown { UnknownReportsAreLegal }
    ensures resized { SettlingResizes }
{}

/// The lines of a merge are true (`merged`), and it gives an answer set only where there is one
/// (`coherent`). True lines settle only candidates (`over`), and the pair that they make encloses the
/// consequences (`encloses`).
pub fn lines_are_true()
    ensures merged { MergedLinesAreTrue }
    ensures coherent { MergedAnswersAreThere }
    ensures over { TrueLinesAreOver }
    ensures encloses { TrueLinesEnclose }
{}

/// What a record says is true at the opening (`opening`), and stays so when true lines are taken in
/// (`lines`), workers change (`workers`) or an own test of a candidate is spent (`spent`). So does
/// what its hidden parts have to do with it.
pub fn records_are_kept()
    ensures opening { OpeningsAreKept }
    ensures lines { TrueLinesAreKept }
    ensures workers { WorkersAreKept }
    ensures spent { SpentTestsAreKept }
{}

/// The lines of answer sets can be made one set after the other (`given`, `dropped`), a size of the
/// pair follows one write (`more`, `less`), and own tests of different candidates ascend once they
/// are sorted (`sorted`).
pub fn records_go_on()
    ensures given { NewsAreGiven }
    ensures dropped { OthersAreDropped }
    ensures more { WritesAddOne }
    ensures less { WritesTakeOne }
    ensures sorted { SortedTestsAscend }
{}
