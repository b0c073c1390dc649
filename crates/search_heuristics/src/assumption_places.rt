// Which assumed literal is next. Those before a place that is kept for a level are true by the
// assignments up to that level, so they are looked at again only once these have gone. What is kept
// for levels above the present one says nothing, so going back has nothing to do.
ghost use Rattle.std.specs.Prelude.{◌≡◌, ◌≢◌, ◌<◌, ◌^◌, ◌+◌, ℕ, List, All, IfNone, IfSome, take};
ghost use Rattle.std.specs.Prelude.{IsSomeAnd, None, length, slice_index, slice_get, slice_set};
ghost use Rattle.clause_store.specs.Clause.{IsOver};
ghost use Rattle.clause_store.specs.Trail.{present_level, value_of};
ghost use Rattle.search_heuristics.specs.Places.{AreTrueBefore, AreTrueOn, IsFirstNotTrue};
ghost use Rattle.search_heuristics.specs.Places.{BeginsAtZero, OpensLevel};

use clause_store::{Lit, Trail, Value};
use item_list::NoMemory;
use std::alloc::Global;
use std::marker::Model;

/// A place among the assumed literals for each level of a trail. Clauses see it as the list of the
/// places, from level 0 on.
#[derive(Debug, Drop)]
pub struct AssumptionPlaces {
    places: Vec<usize>,
}

impl Model for AssumptionPlaces {
    ghost use Rattle.std.specs.Prelude.{List, ℕ};

    ghost Value = { List ℕ };

    ghost view = { λ it. it.places.items };
}

impl AssumptionPlaces {
    /// Places for the levels of a trail over the variables 1 to `vars`, which are right at level 0.
    /// All other calls take no memory.
    pub fn open(alloc: Global, vars: u32) -> Result<AssumptionPlaces, NoMemory>
        requires { vars < 2 ^ 31 }
    {
        let places = vec![in alloc; 0; vars as usize + 1]?;
        Ok(AssumptionPlaces { places })
    }

    /// Begins anew, with other assumed literals, while the trail is at level 0.
    pub fn begin(&mut self)
        ensures { BeginsAtZero self.new }
    {
        self.keep(0, 0);
    }

    /// The place of the first assumed literal that isn't true. None: all are true.
    pub fn next(&mut self, trail: &Trail, assumed: &[Lit]) -> Option<usize>
        requires over { All (IsOver trail.now.vars) assumed.now }
        requires before { AreTrueBefore assumed.now trail.now.steps self.old }
        ensures before { AreTrueBefore assumed.now trail.now.steps self.new }
        ensures none { IfNone result (AreTrueOn trail.now.steps assumed.now) }
        ensures some { IfSome result (IsFirstNotTrue trail.now.steps assumed.now) }
    {
        let level = trail.level() as usize;
        let place = first_not_true(trail, assumed, self.place_at(level));
        self.keep(level, place);
        (place < assumed.len()).then_some(place)
    }

    /// A level is opened. It is called before the decision comes onto the trail.
    pub fn opens_level(&mut self, trail: &Trail)
        ensures { OpensLevel trail.now.steps self.old self.new }
    {
        let level = trail.level() as usize;
        self.keep(level + 1, self.place_at(level));
    }

    /// The place that is kept for a level.
    fn place_at(&self, level: usize) -> usize
        ensures { result ≡ slice_index self.now level }
    {
        self.places.get(level).copied().unwrap_or(0)
    }

    /// Keeps a place for a level, if there is room for that level.
    fn keep(&mut self, level: usize, place: usize)
        ensures { self.new ≡ slice_set self.old level place }
    {
        if level < self.places.len() {
            self.places[level] = place;
        }
    }
}

/// The first place, from one on before which all literals are true, where one isn't.
fn first_not_true(trail: &Trail, assumed: &[Lit], from: usize) -> usize
    requires over { All (IsOver trail.now.vars) assumed.now }
    requires before { AreTrueOn trail.now.steps (take from assumed.now) }
    ensures before { AreTrueOn trail.now.steps (take result assumed.now) }
    ensures at { result < length assumed.now
        → IsSomeAnd (slice_get assumed.now result)
        (λ lit. value_of trail.now.steps lit ≢ Value.Yes) }
{
    let mut at = from;
    'places: while at < assumed.len() {
        if trail.value(assumed[at]) != Value::Yes {
            return at;
        }
        at += 1;
    }
    at
}
