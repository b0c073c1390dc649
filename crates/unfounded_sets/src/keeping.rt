// Sources are looked at where their bodies are doubted, and those that fail are taken away.
ghost use Rattle.std.specs.Prelude.{◌≡◌, ◌≤◌, ◌<◌, [], All, Some, false, get_or, length};
ghost use Rattle.std.specs.Bool.{OnTrue};
ghost use Rattle.normal_program.specs.Loop.{IsAtomOf};
ghost use Rattle.unfounded_sets.specs.Placed.{ArePlaces};
ghost use Rattle.unfounded_sets.specs.Rounds.{IsCovered};
ghost use Rattle.unfounded_sets.specs.Sources.{AreSized, AreSources, AreSourcesBut, LooksAt};
ghost use Rattle.unfounded_sets.specs.Sources.{Stands, work};

use crate::firing::fires;
use crate::places::Places;
use crate::sources::Sources;
use crate::values::is_false_atom;
use clause_store::Trail;
use normal_program::Normal;

/// Takes the sources that fail away, until no body is doubted.
pub fn drop_failed(normal: &Normal, trail: &Trail, places: &Places, sources: &mut Sources)
    requires covered { IsCovered normal.now trail.now.vars }
    requires places { ArePlaces normal.now places.now }
    requires sources { AreSources normal.now trail.now.steps sources.old }
    ensures sources { AreSources normal.now trail.now.steps sources.new }
    ensures none { All (λ waits. waits ≡ false) sources.new.doubted.waits }
{
    'doubts: while let Some(body) = sources.doubted.next() {
        look_at(normal, trail, places, body, sources);
    }
}

// Doubts a body no more, and takes the sources by it away that fail.
fn look_at(normal: &Normal, trail: &Trail, places: &Places, body: u32, sources: &mut Sources)
    requires covered { IsCovered normal.now trail.now.vars }
    requires places { ArePlaces normal.now places.now }
    requires sources { AreSources normal.now trail.now.steps sources.old }
    requires next { sources.old.doubted.next ≡ Some body }
    requires within { body < length sources.old.doubted.waits }
    ensures sources { AreSources normal.now trail.now.steps sources.new }
    ensures nearer { work sources.new < work sources.old }
{
    sources.doubted.settle(body);
    drop_by(normal, trail, places, body, sources);
}

// Takes the sources by a body away that fail.
fn drop_by(normal: &Normal, trail: &Trail, places: &Places, body: u32, sources: &mut Sources)
    requires covered { IsCovered normal.now trail.now.vars }
    requires places { ArePlaces normal.now places.now }
    requires sources { AreSourcesBut normal.now trail.now.steps body
        (get_or places.now.heads body []) sources.old }
    requires within { body < length normal.now.bodies }
    requires few { sources.old.doubted.left ≤ length sources.old.doubted.waits }
    ensures sources { AreSources normal.now trail.now.steps sources.new }
    ensures nearer { work sources.new ≤ work sources.old }
{
    for head in places.heads.at(body) {
        drop_one(normal, trail, places, body, *head, sources);
    }
}

// Takes the source of an atom away if it is this body and fails.
fn drop_one(
    normal: &Normal,
    trail: &Trail,
    places: &Places,
    body: u32,
    head: u32,
    sources: &mut Sources,
)
    requires covered { IsCovered normal.now trail.now.vars }
    requires places { ArePlaces normal.now places.now }
    requires sized { AreSized normal.now sources.old }
    requires within { body < length normal.now.bodies }
    requires is_atom { IsAtomOf normal.now head }
    ensures { LooksAt normal.now trail.now.steps body head sources.old sources.new }
{
    if sources.is_by(head, body) && !stands(normal, trail, sources, body, head) {
        sources.drop_source(places, head);
    }
}

// Whether an atom isn't false and is founded by a body and atoms of smaller ranks. It may say no
// where the hints do.
fn stands(normal: &Normal, trail: &Trail, sources: &Sources, body: u32, head: u32) -> bool
    requires covered { IsCovered normal.now trail.now.vars }
    requires sized { AreSized normal.now sources.now }
    requires within { body < length normal.now.bodies }
    requires is_atom { IsAtomOf normal.now head }
    ensures { OnTrue result (Stands normal.now trail.now.steps sources.now body head) }
{
    let rank = sources.ranks[head as usize];
    sources.hints.may_fire(body)
        && !is_false_atom(normal, trail, head)
        && fires(normal, trail, body, sources.ranks.as_slice(), rank)
}
