// What each kind of event does to the list of actors.
ghost use Rattle.std.specs.Prelude.{◌≡◌, ◌≢◌, ◌<◌, ◌-◌, ◌+◌, ◌^◌, length, replicate, vec_len, IfOk};
ghost use Rattle.std.specs.Prelude.{slice_index, slice_index_or, slice_set, bit_or};
ghost use Rattle.anytime_core.specs.Knowing.{newcomer, steps_once, meets_word, sees_places};
ghost use Rattle.anytime_core.specs.Knowing.{told_by, places_after};
ghost use Rattle.anytime_core.specs.Actors.{CanStep, HasWord, actor_of};

use crate::row::{add_bits, zeros};
use crate::{Actor, Event};
use item_list::{List, NoMemory};
use std::alloc::Global;
use std::mem::replace;

/// So many actors that have seen nothing.
pub(crate) fn newcomers(alloc: Global, words: usize, count: u32) -> Result<Vec<Actor>, NoMemory>
    ensures { IfOk result (λ actors. actors.items ≡ replicate count (newcomer words)) }
{
    let mut actors = Vec::with_capacity(alloc, count as usize)?;
    for _number in 0..count {
        let actor = newcomer(alloc, words)?;
        actors.push(actor)?;
    }
    Ok(actors)
}

/// An actor that has seen nothing.
fn newcomer(alloc: Global, words: usize) -> Result<Actor, NoMemory>
    ensures { IfOk result (λ actor. actor ≡ newcomer words) }
{
    let seen = zeros(alloc, words)?;
    let met = zeros(alloc, words)?;
    Ok(Actor {
        seen,
        places: 0,
        steps: 0,
        met,
        last: None,
    })
}

/// An actor makes a step that teaches nothing.
pub(crate) fn step_once(actors: &mut Vec<Actor>, event: Event, number: u32)
    requires { CanStep actors.old.items number }
    ensures { actors.new.items ≡ slice_set actors.old.items number
        (steps_once (actor_of actors.old.items number) event) }
{
    actors[number as usize].step_once(event);
}

/// An actor meets a word.
pub(crate) fn meet_word(actors: &mut Vec<Actor>, event: Event, number: u32, place: usize, word: u64)
    requires step { CanStep actors.old.items number }
    requires word { HasWord actors.old.items number place }
    ensures { actors.new.items ≡ slice_set actors.old.items number
        (meets_word (actor_of actors.old.items number) event place word) }
{
    actors[number as usize].meet_word(event, place, word);
}

/// A word gets the bits of a mask, and an actor meets it.
pub(crate) fn put_bits(
    words: &mut List<u64>,
    actors: &mut Vec<Actor>,
    event: Event,
    number: u32,
    place: usize,
    mask: u64,
)
    requires step { CanStep actors.old.items number }
    requires seen { HasWord actors.old.items number place }
    requires place { place < length words.old }
    ensures words { words.new
        ≡ slice_set words.old place (bit_or (slice_index words.old place) mask) }
    ensures actors { actors.new.items ≡ slice_set actors.old.items number
        (meets_word (actor_of actors.old.items number) event place
        (bit_or (slice_index words.old place) mask)) }
{
    let word = *words.get(place) | mask;
    words.set(place, word);
    meet_word(actors, event, number, place, word);
}

/// An actor has seen so many places of the log.
pub(crate) fn see_places(actors: &mut Vec<Actor>, event: Event, number: u32, places: u32)
    requires { CanStep actors.old.items number }
    ensures { actors.new.items ≡ slice_set actors.old.items number
        (sees_places (actor_of actors.old.items number) event places) }
{
    actors[number as usize].see_places(event, places);
}

/// An actor looks at a place of the log, which has `there` places.
pub(crate) fn look_at(actors: &mut Vec<Actor>, event: Event, number: u32, place: u32, there: u32)
    requires { CanStep actors.old.items number }
    ensures { actors.new.items ≡ slice_set actors.old.items number
        (sees_places (actor_of actors.old.items number) event
        (places_after (actor_of actors.old.items number).places place there)) }
{
    let seen = actors[number as usize].places;
    let places = if place == seen && seen < there {
        seen + 1
    } else {
        seen
    };
    see_places(actors, event, number, places);
}

/// An actor sees what it and another have seen.
pub(crate) fn tell(actors: &mut Vec<Actor>, to: u32, from: u32)
    requires to { to < vec_len actors.old }
    requires from { from < vec_len actors.old }
    requires differ { to ≢ from }
    requires same { length (actor_of actors.old.items to).seen
        ≡ length (actor_of actors.old.items from).seen }
    ensures { actors.new.items ≡ slice_set actors.old.items to
        (told_by (actor_of actors.old.items to) (actor_of actors.old.items from)) }
{
    let mut seen = replace(&mut actors[to as usize].seen, List::open());
    add_bits(&mut seen, actors[from as usize].seen.as_slice());
    let places = actors[to as usize].places.max(actors[from as usize].places);
    let told = &mut actors[to as usize];
    told.seen = seen;
    told.places = places;
}
