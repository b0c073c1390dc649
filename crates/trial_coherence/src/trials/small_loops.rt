// Loop clauses for small sets: that of the atoms which one atom that is left over needs, and no
// other. The set is kept for the next atom.
ghost use Rattle.trial_coherence.specs.Ready.{IsOpen};

use crate::trials::founding_points::assume_all;
use crate::trials::founding_scene::FoundingScene;
use clause_store::Lit;
use item_list::NoMemory;
use std::alloc::Global;
use std::test::Fail;
use trial_inputs::normal_of;

/// The text of a program, the literals that are made true, by their codes, and the clauses of which
/// one has to be written.
struct Small {
    shows: &'static str,
    text: &'static [u8],
    assumed: &'static [u32],
    clauses: &'static [&'static [u32]],
}

// 1 where 2. 2 where 1. 3 where 4. 4 where 3. 1 where 5. 3 where 6. 5 and 6 may be chosen, and are
// false.
const TWO_LOOPS: &[u8] = b"1 1 1 0 2\n1 2 1 0 1\n1 3 1 0 4\n1 4 1 0 3\n1 1 1 0 5\n1 3 1 0 6\n\
3 2 5 6 0 0\n0\n0\nB+\n0\nB-\n0\n1\n";

static SMALL: [Small; 3] = [
    Small {
        shows: "one of two loops",
        text: TWO_LOOPS,
        assumed: &[11, 13],
        clauses: &[&[3, 10], &[5, 10], &[7, 12], &[9, 12]],
    },
    // The same, and 2 is true.
    Small {
        shows: "the loop of a true atom",
        text: TWO_LOOPS,
        assumed: &[11, 13, 4],
        clauses: &[&[5, 10]],
    },
    // 1 where 2, 3 and 4, each with weight 2, reach 5. Each of these where 1; 2 where 5, 3 where 6,
    // 4 where 7. 5, 6 and 7 may be chosen, and are false. 1 is true.
    Small {
        shows: "one of three atoms of a weight body",
        text: b"5 1 5 3 0 2 3 4 2 2 2\n1 2 1 0 1\n1 3 1 0 1\n1 4 1 0 1\n\
1 2 1 0 5\n1 3 1 0 6\n1 4 1 0 7\n3 3 5 6 7 0 0\n0\n0\nB+\n0\nB-\n0\n1\n",
        assumed: &[2, 11, 13, 15],
        clauses: &[&[3, 10], &[3, 12], &[3, 14]],
    },
];

/// Whether a clause has just these literals, by their codes.
fn is_just(clause: &[Lit], codes: &[u32]) -> bool {
    clause.len() == codes.len() && clause.iter().all(|lit| codes.contains(&lit.0))
}

/// Whether `find` writes one of these clauses.
fn writes_one_of(
    alloc: Global,
    scene: &mut FoundingScene,
    clauses: &[&[u32]],
) -> Result<bool, NoMemory>
    requires { IsOpen scene.old.normal scene.old.trail scene.old.founding }
    ensures { IsOpen scene.new.normal scene.new.trail scene.new.founding }
{
    let found = scene.finds_what_is_left_over(alloc)?;
    let clause = scene.clause.as_slice();
    Ok(found && clauses.iter().any(|codes| is_just(clause, codes)))
}

/// Whether the clause is small.
fn is_small(alloc: Global, small: &Small) -> Result<bool, NoMemory> {
    let Some(normal) = normal_of(alloc, small.text) else {
        return Ok(false);
    };
    let mut scene = FoundingScene::open(alloc, normal)?;
    assume_all(&mut scene, small.assumed);
    writes_one_of(alloc, &mut scene, small.clauses)
}

#[test]
fn a_clause_is_for_one_small_set(rt: HostRuntime) -> Result<(), Fail> {
    for small in &SMALL {
        assert!(rt; is_small(rt.alloc(), small)?, "{}", small.shows);
    }
    Ok(())
}

/// Whether 3 and 4 are denied one after the other, and then 1 and 2, where each denial is assumed.
fn denies_in_turn(alloc: Global, scene: &mut FoundingScene) -> Result<bool, NoMemory>
    requires { IsOpen scene.old.normal scene.old.trail scene.old.founding }
{
    assume_all(scene, &[11, 13]);
    let first = writes_one_of(alloc, scene, &[&[9, 12]])?;
    scene.assume(Lit(9));
    let second = writes_one_of(alloc, scene, &[&[7, 12]])?;
    scene.assume(Lit(7));
    let third = writes_one_of(alloc, scene, &[&[5, 10]])?;
    scene.assume(Lit(5));
    let fourth = writes_one_of(alloc, scene, &[&[3, 10]])?;
    Ok(first && second && third && fourth)
}

/// Whether they are, in the program of two loops.
fn keeps_the_set(alloc: Global) -> Result<bool, NoMemory> {
    let Some(normal) = normal_of(alloc, TWO_LOOPS) else {
        return Ok(false);
    };
    let mut scene = FoundingScene::open(alloc, normal)?;
    denies_in_turn(alloc, &mut scene)
}

#[test]
fn the_atoms_of_a_set_are_denied_in_turn(rt: HostRuntime) -> Result<(), Fail> {
    assert!(rt; keeps_the_set(rt.alloc())?);
    Ok(())
}
