// The own tests of candidates.
ghost use Rattle.std.specs.Prelude.{◌≡◌, ◌≤◌, ◌<◌, [], vec_len, vec_capacity, map, AllPairs};
ghost use Rattle.std.specs.Prelude.{option_to_list};
ghost use Rattle.std.specs.Prelude.{IsPermutation};
ghost use Rattle.master_record.specs.Verdicts.{AreOwnTests};
ghost use Rattle.master_record.specs.Sound.{AreDistinct, AreNumbered};
ghost use Rattle.master_record.specs.Books.{open_own};

use crate::candidates::Candidates;
use item_list::List;
use normal_program::{SpentTest, Tests};

/// A candidate with its own test, which used up its budget.
#[derive(Debug, Drop)]
pub struct OwnTest {
    /// The candidate.
    pub cand: u32,
    /// The test.
    pub test: SpentTest,
}

/// The one test that there may be, in the room that was made for it.
pub(crate) fn only_test(test: Option<SpentTest>, room: Vec<SpentTest>) -> Tests
    requires empty { room.items ≡ [] }
    requires none { vec_len room ≡ 0 }
    requires room { 1 ≤ vec_capacity room }
    ensures { result ≡ option_to_list test }
{
    let mut room = room;
    match test {
        Some(test) => {
            room.push_reserved(test);
            List::from_vec(room)
        }
        None => List::from_vec(room),
    }
}

/// The tests of open candidates, ascending by candidate, in the room that was made for them.
pub(crate) fn open_tests(candidates: Candidates, own: Vec<OwnTest>, room: Vec<SpentTest>) -> Tests
    requires distinct { AreDistinct own.items }
    requires numbered { AreNumbered own.items }
    requires empty { room.items ≡ [] }
    requires none { vec_len room ≡ 0 }
    requires room { vec_len own ≤ vec_capacity room }
    ensures { AreOwnTests (open_own candidates.pair own.items) result }
{
    let own = sorted_tests(own);
    gathered(&candidates, own, room)
}

/// The same tests, ascending by candidate.
fn sorted_tests(own: Vec<OwnTest>) -> Vec<OwnTest>
    requires distinct { AreDistinct own.items }
    ensures permutation { IsPermutation own.items result.items }
    ensures ascending { AllPairs (λ earlier later. earlier.cand < later.cand) result.items }
    ensures len { vec_len result ≡ vec_len own }
{
    let mut own = own;
    own.sort_unstable_by_key(
        |one: &OwnTest| -> u32
            ensures { result ≡ one.now.cand }
        { one.cand },
    );
    own
}

/// The tests of open candidates in order.
fn gathered(candidates: &Candidates, own: Vec<OwnTest>, room: Vec<SpentTest>) -> Tests
    requires numbered { AreNumbered own.items }
    requires empty { room.items ≡ [] }
    requires none { vec_len room ≡ 0 }
    requires room { vec_len own ≤ vec_capacity room }
    ensures { result ≡ map (λ one. one.test) (open_own candidates.now.pair own.items) }
{
    let mut room = room;
    for one in own {
        if candidates.is_open(one.cand) {
            room.push_reserved(one.test);
        }
    }
    List::from_vec(room)
}
