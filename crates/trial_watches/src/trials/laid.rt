// What level 0 does to the watches: clauses of which two literals are left aren't looked at any
// more, and propagation finds what scanning finds.
ghost use Rattle.std.specs.Prelude.{◌<◌, IfOk, OnOk};
ghost use Rattle.propagator.specs.Watched.{IsReady};

use crate::trials::plain::Plain;
use crate::trials::scene::Scene;
use clause_store::Lit;
use item_list::NoMemory;
use std::alloc::Global;
use std::test::Fail;

/// The variables of random clauses are 1 to this one.
const VARS: u32 = 14;

/// Clause i says that variable 1 implies variable i or variable 2, for i from 3 to 1,002. One
/// clause more says that variable 2 is false.
fn clauses_of_two_and_a_false_one(alloc: Global) -> Result<Scene, NoMemory>
    ensures { IfOk result (λ it. IsReady it.store it.trail it.watches) }
{
    let mut scene = Scene::open(alloc, 1_002)?;
    for var in 3..1_003u32 {
        scene.add(alloc, &[3, 2 * var, 4])?;
    }
    scene.add(alloc, &[5])?;
    Ok(scene)
}

/// How many clauses a decision looks at, and then propagation after going back to level 0.
fn looks_and_goes_back(scene: &mut Scene, lit: Lit) -> u64
    requires { IsReady scene.old.store scene.old.trail scene.old.watches }
    ensures { IsReady scene.new.store scene.new.trail scene.new.watches }
{
    let before = scene.watches.looked();
    let _ = scene.decide(lit);
    let after = scene.watches.looked();
    scene.back_to(0);
    let _ = scene.propagate();
    after.saturating_sub(before)
}

/// How many of the 1,000 clauses are looked at where variable 1 becomes true for the first time
/// and for the second, and whether each is a reason both times.
fn looks_at_the_rest(alloc: Global) -> Result<(u64, u64, bool), NoMemory> {
    let mut scene = clauses_of_two_and_a_false_one(alloc)?;
    let _ = scene.propagate();
    let first = looks_and_goes_back(&mut scene, Lit(2));
    let gone = !scene.is_true(Lit(2_004));
    let second = looks_and_goes_back(&mut scene, Lit(2));
    let _ = scene.decide(Lit(2));
    let again = scene.is_true(Lit(6)) && scene.is_true(Lit(2_004));
    Ok((first, second, gone && again))
}

#[test]
fn clauses_of_which_two_literals_are_left_are_not_looked_at(rt: HostRuntime) -> Result<(), Fail> {
    let (first, second, forced) = looks_at_the_rest(rt.alloc())?;
    assert!(rt; first == 1_000);
    assert!(rt; second == 0);
    assert!(rt; forced);
    Ok(())
}

/// Numbers that look random and are the same for the same seed.
#[derive(Debug, Drop)]
struct Draws {
    state: u64,
}

impl Draws {
    /// The next number below `limit`.
    fn below(&mut self, limit: u32) -> u32
        requires { 0 < limit }
        ensures { result < limit }
    {
        self.state = self
            .state
            .wrapping_mul(6364136223846793005)
            .wrapping_add(1442695040888963407);
        (self.state >> 33) as u32 % limit
    }

    /// The code of a random literal.
    fn code(&mut self) -> u32 {
        2 + self.below(2 * VARS)
    }
}

/// How the two propagations go on.
#[derive(Debug, Drop, Clone, Copy, PartialEq, Eq)]
enum Going {
    /// Both came to the same fixpoint.
    Same,
    /// Both found a false clause at level 0.
    Unmet,
    /// They differ.
    Differ,
}

/// Propagates in both, and goes one level back as long as clauses are false.
fn settle(scene: &mut Scene, plain: &mut Plain) -> Going
    requires scene { IsReady scene.old.store scene.old.trail scene.old.watches }
    requires plain { IsReady plain.old.store plain.old.trail plain.old.watches }
    ensures scene { IsReady scene.new.store scene.new.trail scene.new.watches }
    ensures plain { IsReady plain.new.store plain.new.trail plain.new.watches }
{
    for _turn in 0..=VARS {
        let is_false = scene.propagate().is_some();
        if plain.propagate().is_some() != is_false {
            return Going::Differ;
        }
        if !is_false {
            return compare(scene, plain);
        }
        let level = scene.trail.level();
        if level == 0 {
            return Going::Unmet;
        }
        scene.back_to(level - 1);
        plain.back_to(level - 1);
    }
    Going::Differ
}

/// Whether both have the same values and levels.
fn compare(scene: &Scene, plain: &Plain) -> Going {
    for var in 1..=VARS {
        let lit = Lit(2 * var);
        if scene.is_true(lit) != plain.is_true(lit) {
            return Going::Differ;
        }
        if scene.is_true(lit.negated()) != plain.is_true(lit.negated()) {
            return Going::Differ;
        }
    }
    if scene.trail.level() == plain.trail.level() {
        Going::Same
    } else {
        Going::Differ
    }
}

/// Puts a random clause into both.
fn add_clause(
    alloc: Global,
    scene: &mut Scene,
    plain: &mut Plain,
    draws: &mut Draws,
) -> Result<(), NoMemory>
    requires scene { IsReady scene.old.store scene.old.trail scene.old.watches }
    requires plain { IsReady plain.old.store plain.old.trail plain.old.watches }
    ensures scene { OnOk result (IsReady scene.new.store scene.new.trail scene.new.watches) }
    ensures plain { OnOk result (IsReady plain.new.store plain.new.trail plain.new.watches) }
{
    let codes = [draws.code(), draws.code(), draws.code(), draws.code()];
    let count = 1 + draws.below(4) as usize;
    let codes = &codes[..count];
    scene.add(alloc, codes)?;
    plain.add(alloc, codes)?;
    Ok(())
}

/// One step in both: a clause comes, a literal is decided, or both go back.
fn step(
    alloc: Global,
    scene: &mut Scene,
    plain: &mut Plain,
    draws: &mut Draws,
) -> Result<Going, NoMemory>
    requires scene { IsReady scene.old.store scene.old.trail scene.old.watches }
    requires plain { IsReady plain.old.store plain.old.trail plain.old.watches }
    ensures scene { OnOk result (IsReady scene.new.store scene.new.trail scene.new.watches) }
    ensures plain { OnOk result (IsReady plain.new.store plain.new.trail plain.new.watches) }
{
    match draws.below(8) {
        0 | 1 => add_clause(alloc, scene, plain, draws)?,
        2 | 3 => {
            let level = draws.below(3);
            scene.back_to(level);
            plain.back_to(level);
        }
        _ => {
            let lit = Lit(draws.code());
            scene.decide_alone(lit);
            plain.decide_alone(lit);
        }
    }
    Ok(settle(scene, plain))
}

/// Whether both are the same at each step, until the clauses can't be met.
fn stay_the_same(
    alloc: Global,
    scene: &mut Scene,
    plain: &mut Plain,
    seed: u32,
) -> Result<bool, NoMemory>
    requires scene { IsReady scene.old.store scene.old.trail scene.old.watches }
    requires plain { IsReady plain.old.store plain.old.trail plain.old.watches }
{
    let mut draws = Draws {
        state: u64::from(seed),
    };
    for _turn in 0..200u32 {
        match step(alloc, scene, plain, &mut draws)? {
            Going::Same => {}
            Going::Unmet => return Ok(true),
            Going::Differ => return Ok(false),
        }
    }
    Ok(true)
}

/// Whether watching stays the same as scanning on the clauses of a seed.
fn stays_like_scanning(alloc: Global, scene: &mut Scene, seed: u32) -> Result<bool, NoMemory>
    requires scene { IsReady scene.old.store scene.old.trail scene.old.watches }
{
    let mut plain = Plain::open(alloc, VARS)?;
    stay_the_same(alloc, scene, &mut plain, seed)
}

/// Whether it does on the clauses of 40 seeds.
fn finds_what_scanning_finds(alloc: Global) -> Result<bool, NoMemory> {
    for seed in 1..41u32 {
        let mut scene = Scene::open(alloc, VARS)?;
        if !stays_like_scanning(alloc, &mut scene, seed)? {
            return Ok(false);
        }
    }
    Ok(true)
}

#[test]
fn watching_finds_what_scanning_finds(rt: HostRuntime) -> Result<(), Fail> {
    assert!(rt; finds_what_scanning_finds(rt.alloc())?);
    Ok(())
}
