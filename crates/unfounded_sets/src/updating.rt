// The sources are brought up to date with a trail.
ghost use Rattle.std.specs.Prelude.{◌≡◌, ◌<◌, ◌+◌, ◌^◌, length, IfNone, IfSome};
ghost use Rattle.normal_program.specs.Loop.{IsAtomOf};
ghost use Rattle.unfounded_sets.specs.Found.{AreFounded};
ghost use Rattle.unfounded_sets.specs.Placed.{ArePlaces};
ghost use Rattle.unfounded_sets.specs.Rounds.{IsBelow, IsCovered};
ghost use Rattle.unfounded_sets.specs.Sources.{AreSized, AreSources, HasRanked};

use crate::keeping::drop_failed;
use crate::places::Places;
use crate::refounding::{found_anew, one_lost, true_lost};
use crate::sources::Sources;
use clause_store::Trail;
use ground_program::Set;
use normal_program::Normal;

/// Looks at the sources and founds anew. An atom that isn't false and has no source then, a true
/// one where there is one.
pub fn lost_atom(
    normal: &Normal,
    trail: &Trail,
    places: &Places,
    sources: &mut Sources,
) -> Option<u32>
    requires covered { IsCovered normal.now trail.now.vars }
    requires places { ArePlaces normal.now places.now }
    requires sources { AreSources normal.now trail.now.steps sources.old }
    ensures sources { AreSources normal.now trail.now.steps sources.new }
    ensures founded { IfNone result (AreFounded normal.now trail.now.steps) }
    ensures is_atom { IfSome result (IsAtomOf normal.now) }
{
    drop_failed(normal, trail, places, sources);
    found_anew(normal, trail, places, sources);
    match one_lost(normal, trail, sources) {
        None => None,
        Some(atom) => Some(true_lost(normal, trail, sources).unwrap_or(atom)),
    }
}

/// Makes a set that of the atoms that have a source, once all sources were looked at.
pub fn ranked_atoms(
    normal: &Normal,
    trail: &Trail,
    places: &Places,
    sources: &mut Sources,
    set: &mut Set,
)
    requires covered { IsCovered normal.now trail.now.vars }
    requires places { ArePlaces normal.now places.now }
    requires sources { AreSources normal.now trail.now.steps sources.old }
    requires size { length set.old ≡ normal.now.atoms + 1 }
    ensures sources { AreSources normal.now trail.now.steps sources.new }
    ensures below { IsBelow normal.now trail.now.steps set.new }
    ensures size { length set.new ≡ length set.old }
{
    drop_failed(normal, trail, places, sources);
    mark_ranked(normal, sources, set);
}

// Makes the set that of the atoms that have a source.
fn mark_ranked(normal: &Normal, sources: &Sources, set: &mut Set)
    requires sized { AreSized normal.now sources.now }
    requires size { length set.old ≡ normal.now.atoms + 1 }
    requires few { normal.now.atoms < 2 ^ 31 }
    ensures ranked { HasRanked sources.now set.new }
    ensures size { length set.new ≡ length set.old }
{
    for atom in 0..normal.atoms + 1 {
        set.set(atom as usize, sources.has(atom));
    }
}
