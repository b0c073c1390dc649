// The words of all options.
ghost use Rattle.std.specs.Prelude.{◌≡◌, [], ◌∷◌, ◌++◌, List, MatchResult, map, string_bytes};
ghost use Rattle.std.specs.Prelude.{Some, None, IsSome};
ghost use Rattle.run_words.specs.declared.choice.Choice.{Choice};
ghost use Rattle.run_words.specs.declared.chosen.Chosen.{Chosen};
ghost use Rattle.run_words.specs.Words.{IsChosen, AreOptions};

use crate::choice::{Choice, read_choice};
use crate::error::WordsError;
use worker_jobs::Strategy;

/// The values of the options, where they have any.
#[derive(Debug, Drop, Clone, Copy)]
pub struct Chosen {
    pub strategy: Option<Strategy>,
    pub budget: Option<u32>,
    pub slice: Option<u32>,
}

/// Reads the words of options. Each stands once at most.
pub fn read_options(words: &[String]) -> Result<Chosen, WordsError>
    ensures { MatchResult result (AreOptions (map string_bytes words.now))
        (λ _. (chosen : Chosen) → ¬ AreOptions (map string_bytes words.now) chosen) }
{
    let mut chosen = Chosen {
        strategy: None,
        budget: None,
        slice: None,
    };
    for word in words {
        let choice = read_choice(word).ok_or(WordsError::NotTaken)?;
        chosen.take(choice)?;
    }
    Ok(chosen)
}

impl Chosen {
    // Takes the value, where its option has none yet.
    fn take(&mut self, choice: Choice) -> Result<(), WordsError>
        ensures { (choices : List Choice) → IsChosen choices self.old
            → MatchResult result (λ _. IsChosen (choices ++ choice ∷ []) self.new)
            (λ _. (more : List Choice) (chosen : Chosen)
            → ¬ IsChosen (choices ++ choice ∷ more) chosen) }
    {
        match choice {
            Choice::Strategy(strategy) => put(strategy, &mut self.strategy),
            Choice::Budget(budget) => put(budget, &mut self.budget),
            Choice::Slice(slice) => put(slice, &mut self.slice),
        }
    }
}

// Puts a value where there is none.
fn put<T: Copy + Drop>(value: T, place: &mut Option<T>) -> Result<(), WordsError>
    ensures { MatchResult result (λ _. (place.old ≡ None) × (place.new ≡ Some value))
        (λ _. IsSome place.old) }
{
    if place.is_some() {
        return Err(WordsError::NotTaken);
    }
    *place = Some(value);
    Ok(())
}
