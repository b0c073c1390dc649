// Goes over the subsets of a set: one place after the other stays as it is or loses its atom.
ghost use Rattle.std.specs.Prelude.{◌≡◌, ◌≢◌, ◌≤◌, ◌↔◌, length, IsTrue};
ghost use Rattle.ground_program.specs.Meaning.{KeepsAll};
ghost use Rattle.plain_answer_sets.specs.Candidates.{SomeSmallerKeeps};

use ground_program::{Rule, Set, holds_in};

/// Whether some set keeps the rules of the reduct by `by`, isn't `by`, and comes from `trial` by
/// taking away atoms from place `at` on. `trial` is written on the way and is as before at the end.
pub fn some_smaller_keeps(rules: &[Rule], by: &Set, trial: &mut Set, at: usize) -> bool
    requires { at ≤ length trial.old }
    ensures same { trial.new ≡ trial.old }
    ensures found { IsTrue result ↔ SomeSmallerKeeps by.now rules.now trial.old at }
{
    if at == trial.len() {
        return is_other_keeper(rules, by, trial);
    }
    if some_smaller_keeps(rules, by, trial, at + 1) {
        return true;
    }
    if !*trial.get(at) {
        return false;
    }
    trial.set(at, false);
    let found = some_smaller_keeps(rules, by, trial, at + 1);
    trial.set(at, true);
    found
}

/// Whether `set` isn't `by` and keeps every rule of the reduct by `by`.
fn is_other_keeper(rules: &[Rule], by: &Set, set: &Set) -> bool
    ensures { IsTrue result ↔ (set.now ≢ by.now) × KeepsAll by.now set.now rules.now }
{
    set.as_slice() != by.as_slice() && keeps_all(rules, by, set)
}

/// Whether `set` keeps every rule of the reduct by `by`.
pub fn keeps_all(rules: &[Rule], by: &Set, set: &Set) -> bool
    ensures { IsTrue result ↔ KeepsAll by.now set.now rules.now }
{
    for rule in rules {
        if !holds_in(rule, by, set) {
            return false;
        }
    }
    true
}
