// Tests of what no clause says: which literal comes first, and when a search starts anew.
ghost use Rattle.std.specs.Prelude.{◌≡◌, ◌≤◌, ℕ, List, All};
ghost use Rattle.clause_store.specs.declared.literal.Lit.{Lit};
ghost use Rattle.clause_store.specs.Clause.{IsOver};
ghost use Rattle.clause_store.specs.Trail.{present_level};
ghost use Rattle.search_heuristics.specs.Places.{AreTrueBefore};

use crate::{AssumptionPlaces, DecisionOrder, LevelCounter, RestartPace};
use clause_store::{Lit, Trail, Value, Var};
use item_list::NoMemory;
use std::alloc::Global;
use std::test::Fail;

/// The literals that an order decides until the trail is total, by their codes.
fn decide_all(
    alloc: Global,
    order: &mut DecisionOrder,
    trail: &mut Trail,
) -> Result<Vec<u32>, NoMemory> {
    let mut codes = Vec::new(alloc);
    for _ in 0..16 {
        match order.next(trail) {
            Some(lit) => {
                trail.decide(lit);
                codes.push(lit.0)?;
            }
            None => return Ok(codes),
        }
    }
    Ok(codes)
}

/// Makes a literal true if it is unset.
fn make_true(trail: &mut Trail, lit: Lit) {
    if trail.has(lit) && trail.value(lit) == Value::Unset {
        trail.decide(lit);
    }
}

/// Takes all assignments back.
fn start_anew(order: &mut DecisionOrder, trail: &mut Trail) {
    order.take_back(trail, 0);
    trail.back_to(0);
}

/// What is decided first where nothing was bumped, and then where variables 3 and 5 were.
fn by_activity(alloc: Global) -> Result<bool, NoMemory> {
    let mut order = DecisionOrder::open(alloc, 5)?;
    let mut trail = Trail::open(alloc, 5)?;
    let first = decide_all(alloc, &mut order, &mut trail)?;
    order.bump(Var(3));
    order.bump(Var(5));
    order.bump(Var(3));
    start_anew(&mut order, &mut trail);
    let second = decide_all(alloc, &mut order, &mut trail)?;
    Ok(
        first.as_slice() == [3, 5, 7, 9, 11].as_slice()
            && second.as_slice() == [7, 11, 3, 5, 9].as_slice(),
    )
}

#[test]
fn the_most_bumped_variable_comes_first(rt: HostRuntime) -> Result<(), Fail> {
    assert!(rt; by_activity(rt.alloc())?);
    Ok(())
}

/// Bumps one variable, then lets `conflicts` conflicts pass, each of which bumps another one, and
/// says which of them comes first.
fn first_after(alloc: Global, conflicts: u32) -> Result<Option<Lit>, NoMemory> {
    let mut order = DecisionOrder::open(alloc, 4)?;
    let mut trail = Trail::open(alloc, 4)?;
    let _ = decide_all(alloc, &mut order, &mut trail)?;
    order.prefer(&[Lit(8)]);
    for _ in 0..conflicts {
        order.bump(Var(2));
        order.conflict();
    }
    start_anew(&mut order, &mut trail);
    order.set_phase(Lit(8));
    Ok(order.next(&trail))
}

#[test]
fn a_preferred_literal_comes_first_until_its_lead_has_faded(rt: HostRuntime) -> Result<(), Fail> {
    assert_eq!(rt; first_after(rt.alloc(), 0)?, Some(Lit(8)));
    assert_eq!(rt; first_after(rt.alloc(), 10)?, Some(Lit(8)));
    assert_eq!(rt; first_after(rt.alloc(), 20)?, Some(Lit(5)));
    assert_eq!(rt; first_after(rt.alloc(), 2000)?, Some(Lit(5)));
    Ok(())
}

/// The last values of variables are their phases.
fn by_phase(alloc: Global) -> Result<bool, NoMemory> {
    let mut order = DecisionOrder::open(alloc, 3)?;
    let mut trail = Trail::open(alloc, 3)?;
    make_true(&mut trail, Lit(4));
    make_true(&mut trail, Lit(7));
    start_anew(&mut order, &mut trail);
    order.set_phase(Lit(6));
    let codes = decide_all(alloc, &mut order, &mut trail)?;
    Ok(codes.as_slice() == [3, 4, 6].as_slice())
}

#[test]
fn a_variable_is_decided_as_it_was_last(rt: HostRuntime) -> Result<(), Fail> {
    assert!(rt; by_phase(rt.alloc())?);
    Ok(())
}

/// After going back to level 1 the first level stays decided, and the rest comes by activity.
fn going_back_in_part(alloc: Global) -> Result<bool, NoMemory> {
    let mut order = DecisionOrder::open(alloc, 4)?;
    let mut trail = Trail::open(alloc, 4)?;
    let _ = decide_all(alloc, &mut order, &mut trail)?;
    order.bump(Var(4));
    order.bump(Var(1));
    order.take_back(&trail, 1);
    if trail.level() < 1 {
        return Ok(false);
    }
    trail.back_to(1);
    let codes = decide_all(alloc, &mut order, &mut trail)?;
    Ok(codes.as_slice() == [9, 5, 7].as_slice())
}

#[test]
fn what_stays_assigned_is_passed_over(rt: HostRuntime) -> Result<(), Fail> {
    assert!(rt; going_back_in_part(rt.alloc())?);
    Ok(())
}

/// A pace after conflicts with so many levels each.
fn pace_after(usual: u32, conflicts: u32, levels: u32, more: u32) -> RestartPace {
    let mut pace = RestartPace::open();
    for _ in 0..conflicts {
        pace.conflict(usual);
    }
    for _ in 0..more {
        pace.conflict(levels);
    }
    pace
}

#[test]
fn a_search_restarts_where_clauses_have_more_levels_than_usual(rt: HostRuntime) {
    assert!(rt; !pace_after(10, 1000, 10, 0).wants_restart());
    assert!(rt; !pace_after(10, 1000, 11, 40).wants_restart());
    assert!(rt; pace_after(10, 1000, 20, 40).wants_restart());
    assert!(rt; !pace_after(10, 20, 20, 29).wants_restart());
    assert!(rt; !pace_after(4294967295, 1000, 4294967295, 1000).wants_restart());
    let mut pace = pace_after(10, 1000, 20, 40);
    pace.restarted();
    assert!(rt; !pace.wants_restart());
}

/// The numbers of levels of clauses on a trail of three levels.
fn counted_levels(alloc: Global) -> Result<[u32; 4], NoMemory> {
    let mut trail = Trail::open(alloc, 5)?;
    let mut counter = LevelCounter::open(alloc, 5)?;
    make_true(&mut trail, Lit(2));
    make_true(&mut trail, Lit(5));
    make_true(&mut trail, Lit(6));
    Ok([
        counter.levels_of(&trail, &[Lit(3), Lit(4), Lit(7)]),
        counter.levels_of(&trail, &[Lit(3), Lit(2), Lit(8)]),
        counter.levels_of(&trail, &[Lit(3), Lit(5)]),
        counter.levels_of(&trail, &[Lit(8), Lit(40)]),
    ])
}

#[test]
fn levels_are_counted_once_each(rt: HostRuntime) -> Result<(), Fail> {
    assert_eq!(rt; counted_levels(rt.alloc())?, [3, 1, 2, 0]);
    Ok(())
}

/// Makes the next assumed literal true, if it is unset, and says where it stands.
fn assume_next(trail: &mut Trail, places: &mut AssumptionPlaces, assumed: &[Lit]) -> Option<usize>
    requires over { All (IsOver trail.old.vars) assumed.now }
    requires before { AreTrueBefore assumed.now trail.old.steps places.old }
    ensures vars { trail.new.vars ≡ trail.old.vars }
    ensures before { AreTrueBefore assumed.now trail.new.steps places.new }
{
    let found = places.next(trail, assumed)?;
    let lit = assumed[found];
    if trail.value(lit) == Value::Unset {
        places.opens_level(trail);
        trail.decide(lit);
    }
    Some(found)
}

/// Goes back, after which places are as right as before.
fn go_back(trail: &mut Trail, level: u32)
    requires { level ≤ present_level trail.old.steps }
    ensures vars { trail.new.vars ≡ trail.old.vars }
    ensures before { (assumed : List Lit) (places : List ℕ)
        → AreTrueBefore assumed trail.old.steps places
        → AreTrueBefore assumed trail.new.steps places }
{
    trail.back_to(level);
}

/// Where the assumed literals are found one after another, and again after going back to level 1.
fn found_in_order(alloc: Global, assumed: &[Lit]) -> Result<[Option<usize>; 5], NoMemory>
    requires { All (IsOver 4) assumed.now }
{
    let mut trail = Trail::open(alloc, 4)?;
    let mut places = AssumptionPlaces::open(alloc, 4)?;
    places.begin();
    let first = assume_next(&mut trail, &mut places, assumed);
    let second = assume_next(&mut trail, &mut places, assumed);
    let third = assume_next(&mut trail, &mut places, assumed);
    let last = assume_next(&mut trail, &mut places, assumed);
    if trail.level() < 1 {
        return Ok([None; 5]);
    }
    go_back(&mut trail, 1);
    let again = assume_next(&mut trail, &mut places, assumed);
    Ok([first, second, third, last, again])
}

#[test]
fn assumed_literals_are_found_one_after_another(rt: HostRuntime) -> Result<(), Fail> {
    let found = found_in_order(rt.alloc(), &[Lit(2), Lit(2), Lit(5), Lit(6)])?;
    assert_eq!(rt; found, [Some(0), Some(2), Some(3), None, Some(2)]);
    Ok(())
}

/// The literals that are decided where two are sought, and then again after an answer in which one
/// of them was false.
fn sought_until_shown(alloc: Global) -> Result<bool, NoMemory> {
    let mut order = DecisionOrder::open(alloc, 4)?;
    let mut trail = Trail::open(alloc, 4)?;
    order.seek(alloc, &[Lit(8), Lit(6)])?;
    order.begin(&trail, 0);
    make_true(&mut trail, Lit(7));
    let first = decide_all(alloc, &mut order, &mut trail)?;
    order.answered(&trail);
    start_anew(&mut order, &mut trail);
    order.begin(&trail, 0);
    let second = decide_all(alloc, &mut order, &mut trail)?;
    start_anew(&mut order, &mut trail);
    order.begin(&trail, 4);
    for _ in 0..6 {
        order.conflict();
    }
    let third = decide_all(alloc, &mut order, &mut trail)?;
    Ok(
        first.as_slice() == [8, 3, 5].as_slice()
            && second.as_slice() == [6, 3, 5, 8].as_slice()
            && third.as_slice() == [3, 5, 7, 8].as_slice(),
    )
}

#[test]
fn a_sought_literal_comes_first_until_an_answer_or_ten_conflicts(
    rt: HostRuntime,
) -> Result<(), Fail> {
    assert!(rt; sought_until_shown(rt.alloc())?);
    Ok(())
}
