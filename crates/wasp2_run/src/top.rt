// The top call.
ghost use Rattle.std.specs.Prelude.{◌≡◌, ◌⊎◌, [], Some, IfSome, map, string_bytes};
ghost use Rattle.byte_edges.specs.Faults.{Rose};
ghost use Rattle.run_words.specs.Words.{Orders};
ghost use Rattle.wasp2_run.specs.Run.{AreOther, IsAllowed, IsAnsweredBy, IsDecidedAs, Ran, Row};

use crate::refusal_line::{refuse, without_tests};
use crate::running::run_one;
use byte_edges::{Sink, Source};
use query_run::Ended;
use report::Why;
use run_words::{Settings, Task, one_task_is_ordered, read_words};
use std::alloc::Global;

/// Reads a program from the source, finds what the words ask, and writes the report on it to the
/// sink.
pub fn run<S: Source, K: Sink>(
    alloc: Global,
    words: &[String],
    source: &mut S,
    sink: &mut K,
) -> Ended
    // What was written, the status and the spent tests are a row of the table, or the writing was
    // cut off.
    ensures table { Ran K.written K.faults
        (IsAllowed (λ input. Row (map string_bytes words.now) input (S.faults source.old)
        (S.faults source.new)) (S.left source.old))
        sink.old sink.new result.status result.spent }
    ensures read_fault { result.status ≡ 5 → Rose (S.faults source.old) (S.faults source.new) }
    ensures write_fault { result.status ≡ 6 → Rose (K.faults sink.old) (K.faults sink.new) }
    ensures all_read { (result.status ≡ 0) ⊎ ((result.status ≡ 1) ⊎ (result.status ≡ 2))
        → IfSome (S.left source.old) (λ _. S.left source.new ≡ Some []) }
    ensures unread { result.status ≡ 4 → source.new ≡ source.old }
    ensures accepted { AreOther (map string_bytes words.now)
        ⊎ IfSome (S.left source.old) (IsAnsweredBy result.status (S.faults source.old)
        (S.faults source.new) (K.faults sink.old) (K.faults sink.new)) }
    // A budget of at least 3 to the power of the number of variables leaves no test spent.
    ensures decided { (settings : Settings) → Orders (map string_bytes words.now)
        (Task.Query settings) → IfSome (S.left source.old) (IsDecidedAs settings.budget
        result.status (S.faults source.old) (S.faults source.new) (K.faults sink.old)
        (K.faults sink.new)) }
{
    match read_words(words) {
        Ok(task) => {
            one_task_is_ordered();
            let settings = settings_of(task);
            run_one(alloc, &settings, source, sink)
        }
        Err(_) => match refuse(4, 0, Why::Words, 0, sink) {
            Ok(ended) => ended,
            Err(_) => without_tests(6),
        },
    }
}

/// The settings of a task.
fn settings_of(task: Task) -> Settings
    ensures { task ≡ Task.Query result }
{
    match task {
        Task::Query(settings) => settings,
    }
}
