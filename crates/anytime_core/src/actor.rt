ghost use Rattle.std.specs.Prelude.{◌≡◌, ◌<◌, ◌-◌, ◌^◌, max, length};
ghost use Rattle.anytime_core.specs.Bits.{both};
ghost use Rattle.anytime_core.specs.Knowing.{steps_once, meets_word, sees_places};

use crate::Event;
use item_list::List;

/// What an actor has seen and done.
#[derive(Debug, Drop)]
pub struct Actor {
    /// Each word of the row as the actor has seen it.
    pub seen: List<u64>,
    /// How many places of the log it has seen.
    pub places: u32,
    /// How many steps it has made.
    pub steps: u64,
    /// For each word the number of the step that met it last, from 1, or 0.
    pub met: List<u64>,
    /// Its last event.
    pub last: Option<Event>,
}

impl Actor {
    /// Makes a step that teaches nothing.
    pub(crate) fn step_once(&mut self, event: Event)
        requires { self.old.steps < 2 ^ 64 - 1 }
        ensures { self.new ≡ steps_once self.old event }
    {
        self.steps += 1;
        self.last = Some(event);
    }

    /// Meets the word at a place.
    pub(crate) fn meet_word(&mut self, event: Event, place: usize, word: u64)
        requires few { self.old.steps < 2 ^ 64 - 1 }
        requires seen { place < length self.old.seen }
        requires met { place < length self.old.met }
        ensures { self.new ≡ meets_word self.old event place word }
    {
        self.step_once(event);
        self.seen.set(place, word);
        self.met.set(place, self.steps);
    }

    /// Has seen so many places of the log.
    pub(crate) fn see_places(&mut self, event: Event, places: u32)
        requires { self.old.steps < 2 ^ 64 - 1 }
        ensures { self.new ≡ sees_places self.old event places }
    {
        self.step_once(event);
        self.places = places;
    }
}
