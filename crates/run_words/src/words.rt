// All words of a call.
ghost use Rattle.std.specs.Prelude.{◌≡◌, ◌≢◌, MatchOption, IfOk, IfErr, map, string_bytes};
ghost use Rattle.ground_program.specs.declared.program.Mode.{Mode};
ghost use Rattle.run_words.specs.declared.task.Task.{Task};
ghost use Rattle.run_words.specs.Words.{mode_word, Orders, IsTask};

use crate::chosen::read_options;
use crate::error::WordsError;
use crate::task::{Settings, Task};
use ground_program::Mode;
use worker_jobs::Strategy;

// What the settings are where no word says another.
const WORKERS: u32 = 1;

const WATCH: u32 = 0;

const BUDGET: u32 = 100_000;

const SLICE: u32 = 256;

/// Reads the words of a call, without the program's own name. The first is `cautious` or `brave`,
/// and each later one gives a value to `--strategy=`, `--budget=` or `--slice=`, to each once at
/// most. NotTaken comes exactly where they order no task.
pub fn read_words(words: &[String]) -> Result<Task, WordsError>
    ensures orders { IfOk result (Orders (map string_bytes words.now)) }
    ensures in_range { IfOk result IsTask }
    ensures not_taken { IfErr result
        (λ _. (task : Task) → ¬ Orders (map string_bytes words.now) task) }
{
    let [first, rest @ ..] = words else {
        return Err(WordsError::NotTaken);
    };
    let mode = read_mode(first).ok_or(WordsError::NotTaken)?;
    let chosen = read_options(rest)?;
    Ok(Task::Query(Settings {
        mode,
        workers: WORKERS,
        watch: WATCH,
        strategy: chosen.strategy.unwrap_or(Strategy::Single),
        budget: chosen.budget.unwrap_or(BUDGET),
        slice: chosen.slice.unwrap_or(SLICE),
    }))
}

// The mode with this word, if there is one.
fn read_mode(word: &str) -> Option<Mode>
    ensures { MatchOption result ((mode : Mode) → word.now ≢ mode_word mode)
        (λ mode. word.now ≡ mode_word mode) }
{
    match word {
        "cautious" => Some(Mode::Cautious),
        "brave" => Some(Mode::Brave),
        _ => None,
    }
}
