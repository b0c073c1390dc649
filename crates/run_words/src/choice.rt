// The word of an option, `--name=value`.
ghost use Rattle.std.specs.Prelude.{◌≡◌, ◌≢◌, ◌++◌, ◌↔◌, ℕ, List, IsTrue, MatchOption, decimal};
ghost use Rattle.worker_jobs.specs.declared.job.Strategy.{Strategy};
ghost use Rattle.run_words.specs.declared.choice.Choice.{Choice};
ghost use Rattle.run_words.specs.Words.{IsUpTo, IsNamed, strategy_word, IsChoice, choice_word};

use itoa::Buffer;
use worker_jobs::Strategy;

// The greatest values.
const MOST_BUDGET: u32 = 1_000_000_000;

const MOST_SLICE: u32 = 1_000_000;

// How many candidates a chunk has.
const CHUNK: u32 = 16;

/// An option with its value.
#[derive(Debug, Drop, Clone, Copy)]
pub enum Choice {
    Strategy(Strategy),
    Budget(u32),
    Slice(u32),
}

/// The choice whose word this is, if there is one.
pub fn read_choice(word: &str) -> Option<Choice>
    ensures { MatchOption result
        ((choice : Choice) → IsChoice choice → word.now ≢ choice_word choice)
        (λ choice. IsChoice choice × (word.now ≡ choice_word choice)) }
{
    if let Some(value) = value_of(word, "--strategy=") {
        return Some(Choice::Strategy(read_strategy(value)?));
    }
    if let Some(value) = value_of(word, "--budget=") {
        return Some(Choice::Budget(read_number(value, MOST_BUDGET)?));
    }
    let value = value_of(word, "--slice=")?;
    Some(Choice::Slice(read_number(value, MOST_SLICE)?))
}

// What stands behind the name, if the word begins with it.
fn value_of<'a>(word: &'a str, name: &str) -> Option<&'a str>
    ensures { MatchOption result ((value : List ℕ) → word.now ≢ name.now ++ value)
        (λ value. word.now ≡ name.now ++ value.now) }
{
    word.strip_prefix(name)
}

// The strategy with this word, if there is one.
fn read_strategy(word: &str) -> Option<Strategy>
    ensures { MatchOption result
        ((strategy : Strategy) → IsNamed strategy → word.now ≢ strategy_word strategy)
        (λ strategy. IsNamed strategy × (word.now ≡ strategy_word strategy)) }
{
    match word {
        "single" => Some(Strategy::Single),
        "reduction" => Some(Strategy::Reduction),
        "chunks" => Some(Strategy::Chunks(CHUNK)),
        "mix" => Some(Strategy::Mix),
        _ => None,
    }
}

// The number from 1 to `most` with this text, if there is one.
fn read_number(text: &str, most: u32) -> Option<u32>
    ensures { MatchOption result ((number : ℕ) → IsUpTo most number → text.now ≢ decimal number)
        (λ number. IsUpTo most number × (text.now ≡ decimal number)) }
{
    let number: u32 = text.parse().ok()?;
    if !is_decimal(text, number) {
        return None;
    }
    if 1 <= number && number <= most {
        Some(number)
    } else {
        None
    }
}

// Whether the text is just the number in decimal, without a sign or leading zeros.
fn is_decimal(text: &str, number: u32) -> bool
    ensures { IsTrue result ↔ (text.now ≡ decimal number) }
{
    let mut digits = Buffer::new();
    digits.format(number) == text
}
