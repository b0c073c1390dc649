// The points at which founding is hard, each as a program of two or three rules: recursion through
// weight and constraint bodies, choice heads and negative literals.
ghost use Rattle.trial_coherence.specs.Ready.{IsOpen};

use crate::trials::founding_scene::FoundingScene;
use crate::trials::plain_founding::{bit, left_over};
use clause_store::Lit;
use item_list::NoMemory;
use std::alloc::Global;
use std::test::Fail;
use trial_inputs::normal_of;

/// The text of a program, the literals that are made true, by their codes, and which atoms that
/// aren't false aren't founded then.
struct Point {
    shows: &'static str,
    text: &'static [u8],
    assumed: &'static [u32],
    left: &'static [u32],
}

static POINTS: [Point; 14] = [
    // 1 where 2 with weight 2 and 3 with weight 1 reach 2. 2 where 1. 3 may be chosen.
    Point {
        shows: "a weight body that 3 alone doesn't reach",
        text: b"5 1 2 2 0 2 3 2 1\n1 2 1 0 1\n3 1 3 0 0\n0\n0\nB+\n0\nB-\n0\n1\n",
        assumed: &[],
        left: &[1, 2],
    },
    // 1 where 2 with weight 2 and 3 with weight 2 reach 2. 2 where 1. 3 may be chosen.
    Point {
        shows: "a weight body that 3 alone reaches",
        text: b"5 1 2 2 0 2 3 2 2\n1 2 1 0 1\n3 1 3 0 0\n0\n0\nB+\n0\nB-\n0\n1\n",
        assumed: &[],
        left: &[],
    },
    // The same, and 3 is false.
    Point {
        shows: "a weight body without 3",
        text: b"5 1 2 2 0 2 3 2 2\n1 2 1 0 1\n3 1 3 0 0\n0\n0\nB+\n0\nB-\n0\n1\n",
        assumed: &[7],
        left: &[1, 2],
    },
    // 1 where two of 2, 3 and 4. 2 where 1. 3 and 4 may be chosen.
    Point {
        shows: "a constraint body that 3 and 4 reach",
        text: b"2 1 3 0 2 2 3 4\n1 2 1 0 1\n3 2 3 4 0 0\n0\n0\nB+\n0\nB-\n0\n1\n",
        assumed: &[],
        left: &[],
    },
    // The same, and 4 is false.
    Point {
        shows: "a constraint body that needs its own head",
        text: b"2 1 3 0 2 2 3 4\n1 2 1 0 1\n3 2 3 4 0 0\n0\n0\nB+\n0\nB-\n0\n1\n",
        assumed: &[9],
        left: &[1, 2],
    },
    // 1 may be chosen where 2. 2 may be chosen where 1.
    Point {
        shows: "choices that need each other",
        text: b"3 1 1 1 0 2\n3 1 2 1 0 1\n0\n0\nB+\n0\nB-\n0\n1\n",
        assumed: &[],
        left: &[1, 2],
    },
    // 1 may be chosen. 2 where 1. 1 where 2.
    Point {
        shows: "a choice outside the loop",
        text: b"3 1 1 0 0\n1 2 1 0 1\n1 1 1 0 2\n0\n0\nB+\n0\nB-\n0\n1\n",
        assumed: &[4],
        left: &[],
    },
    // 1 and 3 may be chosen where 2. 2 where 1. 3 is false.
    Point {
        shows: "a choice with a false head",
        text: b"3 2 1 3 1 0 2\n1 2 1 0 1\n0\n0\nB+\n0\nB-\n0\n1\n",
        assumed: &[7, 2],
        left: &[1, 2],
    },
    // 1 where not 2. 2 where not 1.
    Point {
        shows: "negative literals that aren't false",
        text: b"1 1 1 1 2\n1 2 1 1 1\n0\n0\nB+\n0\nB-\n0\n1\n",
        assumed: &[],
        left: &[],
    },
    // The same, and 1 is true.
    Point {
        shows: "a negative literal that is false",
        text: b"1 1 1 1 2\n1 2 1 1 1\n0\n0\nB+\n0\nB-\n0\n1\n",
        assumed: &[2],
        left: &[2],
    },
    // 1 where not 3 with weight 2 and 2 with weight 1 reach 2. 2 where 1. 3 may be chosen.
    Point {
        shows: "a negative literal that reaches a weight body",
        text: b"5 1 2 2 1 3 2 2 1\n1 2 1 0 1\n3 1 3 0 0\n0\n0\nB+\n0\nB-\n0\n1\n",
        assumed: &[],
        left: &[],
    },
    // The same, and 3 is true.
    Point {
        shows: "a weight body whose negative literal is false",
        text: b"5 1 2 2 1 3 2 2 1\n1 2 1 0 1\n3 1 3 0 0\n0\n0\nB+\n0\nB-\n0\n1\n",
        assumed: &[6],
        left: &[1, 2],
    },
    // 1 may be chosen. 2 where 1, which has variable 4. That variable is false.
    Point {
        shows: "a body that is false",
        text: b"3 1 1 0 0\n1 2 1 0 1\n0\n0\nB+\n0\nB-\n0\n1\n",
        assumed: &[9],
        left: &[2],
    },
    // 2 where 3. 3 where 2. Atom 1 is false, and all else is true.
    Point {
        shows: "two atoms that support each other",
        text: b"1 2 1 0 3\n1 3 1 0 2\n0\n2 a\n3 b\n0\nB+\n0\nB-\n1\n0\n1\n",
        assumed: &[3, 4, 6, 8, 10],
        left: &[2, 3],
    },
];

/// The set of some atoms.
fn bits_of(atoms: &[u32]) -> u32 {
    let mut bits = 0;
    for atom in atoms {
        bits |= bit(*atom);
    }
    bits
}

/// Makes literals true, by their codes.
pub fn assume_all(scene: &mut FoundingScene, codes: &[u32])
    requires { IsOpen scene.old.normal scene.old.trail scene.old.founding }
    ensures { IsOpen scene.new.normal scene.new.trail scene.new.founding }
{
    for code in codes {
        scene.assume(Lit(*code));
    }
}

/// Whether at a point just the atoms are left over that it says, and `find` tells so.
fn is_shown(alloc: Global, point: &Point) -> Result<bool, NoMemory> {
    let Some(normal) = normal_of(alloc, point.text) else {
        return Ok(false);
    };
    let mut scene = FoundingScene::open(alloc, normal)?;
    assume_all(&mut scene, point.assumed);
    let left = left_over(&scene.normal, &scene.trail);
    let found = scene.finds_what_is_left_over(alloc)?;
    Ok(found && left == bits_of(point.left))
}

#[test]
fn atoms_are_left_over_at_each_hard_point(rt: HostRuntime) -> Result<(), Fail> {
    for point in &POINTS {
        assert!(rt; is_shown(rt.alloc(), point)?, "{}", point.shows);
    }
    Ok(())
}
