// Which records are programs of the numeric format.
ghost use Rattle.std.specs.Prelude.{◌≡◌, ◌≤◌, ◌<◌, ◌^◌, ◌↔◌, max, flat_map, length, All, IsTrue};
ghost use Rattle.ground_program.specs.Program.{IsNumber, NegativesFirst, HeadsFit, BoundFits};
ghost use Rattle.ground_program.specs.Program.{WeightFits, IsRule, IsName, IsProgram};
ghost use Rattle.ground_program.specs.Program.{atoms_of_rule, atoms_of, greatest};
ghost use Rattle.ground_program.specs.Validity.{IsAtom, RuleAtoms, ComputeAtoms, AllAtoms};
ghost use Rattle.ground_program.specs.Validity.{NumbersFit, PartsFit, AtomsFit, FitsKind};
ghost use Rattle.ground_program.specs.Validity.{RuleNumbers, atoms_of_body, atoms_of_names};

use crate::{Kind, Named, Program, Rule, Weighted};

/// The greatest number of the format.
const MOST: u32 = 2147483647;

/// Whether the program is one that the numeric format can write.
pub fn is_valid(program: &Program) -> bool
    ensures { IsTrue result ↔ IsProgram program.now }
{
    parts_fit(program) && atoms_fit(program)
}

fn parts_fit(program: &Program) -> bool
    ensures { IsTrue result ↔ PartsFit program.now }
{
    numbers_fit(program)
        && are_rules(program.rules.as_slice())
        && have_names(program.names.as_slice())
}

fn are_rules(rules: &[Rule]) -> bool
    ensures { IsTrue result ↔ All IsRule rules.now }
{
    rules.iter().all(|rule| is_rule(rule))
}

fn have_names(names: &[Named]) -> bool
    ensures { IsTrue result ↔ All (λ named. IsName named.name) names.now }
{
    names.iter().all(|named| is_name(named.name.as_slice()))
}

fn atoms_fit(program: &Program) -> bool
    ensures { IsTrue result ↔ AtomsFit program.now }
{
    have_atoms(program) && program.atoms == greatest_atom(program)
}

fn numbers_fit(program: &Program) -> bool
    ensures { IsTrue result ↔ NumbersFit program.now }
{
    program.models <= MOST
        && is_short(program.rules.len())
        && is_short(program.names.len())
        && is_short(program.must.len())
        && is_short(program.must_not.len())
}

fn is_short(items: usize) -> bool
    ensures { IsTrue result ↔ IsNumber items }
{
    items <= MOST as usize
}

/// The greatest atom that occurs in the rules, the symbol table and the compute statement, or 0.
pub fn greatest_atom(program: &Program) -> u32
    ensures { result ≡ greatest (atoms_of program.now) }
{
    let rules = greatest_in_rules(program.rules.as_slice());
    let names = greatest_in_names(program.names.as_slice());
    let must = greatest_number(program.must.as_slice());
    let must_not = greatest_number(program.must_not.as_slice());
    rules.max(names).max(must).max(must_not)
}

fn greatest_in_rules(rules: &[Rule]) -> u32
    ensures { result ≡ greatest (flat_map atoms_of_rule rules.now) }
{
    let mut most = 0;
    for rule in rules {
        most = most.max(greatest_in_rule(rule));
    }
    most
}

fn greatest_in_rule(rule: &Rule) -> u32
    ensures { result ≡ greatest (atoms_of_rule rule.now) }
{
    greatest_number(rule.heads.as_slice()).max(greatest_in_body(rule.body.as_slice()))
}

fn greatest_in_body(body: &[Weighted]) -> u32
    ensures { result ≡ greatest (atoms_of_body body.now) }
{
    let mut most = 0;
    for part in body {
        most = most.max(part.lit.atom);
    }
    most
}

fn greatest_in_names(names: &[Named]) -> u32
    ensures { result ≡ greatest (atoms_of_names names.now) }
{
    let mut most = 0;
    for named in names {
        most = most.max(named.atom);
    }
    most
}

fn greatest_number(numbers: &[u32]) -> u32
    ensures { result ≡ greatest numbers.now }
{
    let mut most = 0;
    for number in numbers {
        most = most.max(*number);
    }
    most
}

/// Whether all that stand for atoms can be atoms.
fn have_atoms(program: &Program) -> bool
    ensures { IsTrue result ↔ AllAtoms program.now }
{
    if !rules_have_atoms(program.rules.as_slice()) {
        return false;
    }
    names_have_atoms(program.names.as_slice()) && has_compute_atoms(program)
}

fn rules_have_atoms(rules: &[Rule]) -> bool
    ensures { IsTrue result ↔ All RuleAtoms rules.now }
{
    for rule in rules {
        if !has_atoms(rule) {
            return false;
        }
    }
    true
}

fn names_have_atoms(names: &[Named]) -> bool
    ensures { IsTrue result ↔ All (λ named. IsAtom named.atom) names.now }
{
    names.iter().all(|named| is_atom(named.atom))
}

fn has_compute_atoms(program: &Program) -> bool
    ensures { IsTrue result ↔ ComputeAtoms program.now }
{
    are_atoms(program.must.as_slice()) && are_atoms(program.must_not.as_slice())
}

fn has_atoms(rule: &Rule) -> bool
    ensures { IsTrue result ↔ RuleAtoms rule.now }
{
    are_atoms(rule.heads.as_slice())
        && rule
            .body
            .as_slice()
            .iter()
            .all(|part| is_atom(part.lit.atom))
}

fn are_atoms(numbers: &[u32]) -> bool
    ensures { IsTrue result ↔ All IsAtom numbers.now }
{
    numbers.iter().all(|number| is_atom(*number))
}

fn is_atom(number: u32) -> bool
    ensures { IsTrue result ↔ IsAtom number }
{
    1 <= number && number <= MOST
}

fn is_rule(rule: &Rule) -> bool
    ensures { IsTrue result ↔ IsRule rule.now }
{
    fits_kind(rule) && has_numbers(rule) && negatives_first(rule.body.as_slice())
}

fn fits_kind(rule: &Rule) -> bool
    ensures { IsTrue result ↔ FitsKind rule.now }
{
    heads_fit(rule.kind, rule.heads.as_slice())
        && bound_fits(rule.kind, rule.bound, rule.body.as_slice())
        && weights_fit(rule.kind, rule.body.as_slice())
}

fn has_numbers(rule: &Rule) -> bool
    ensures { IsTrue result ↔ RuleNumbers rule.now }
{
    rule.bound <= MOST && is_short(rule.heads.len()) && is_short(rule.body.len())
}

fn heads_fit(kind: Kind, heads: &[u32]) -> bool
    ensures { IsTrue result ↔ HeadsFit kind heads.now }
{
    match kind {
        Kind::Basic | Kind::Constraint | Kind::Weight => heads.len() == 1,
        Kind::Choice | Kind::Disjunctive => true,
    }
}

fn bound_fits(kind: Kind, bound: u32, body: &[Weighted]) -> bool
    ensures { IsTrue result ↔ BoundFits kind bound body.now }
{
    match kind {
        Kind::Basic | Kind::Choice | Kind::Disjunctive => bound as usize == body.len(),
        Kind::Constraint | Kind::Weight => true,
    }
}

fn weights_fit(kind: Kind, body: &[Weighted]) -> bool
    ensures { IsTrue result ↔ All (λ part. WeightFits kind part.weight) body.now }
{
    match kind {
        Kind::Weight => body.iter().all(|part| part.weight <= MOST),
        Kind::Basic | Kind::Constraint | Kind::Choice | Kind::Disjunctive => {
            body.iter().all(|part| part.weight == 1)
        }
    }
}

/// Whether no negative literal stands behind a positive one.
fn negatives_first(body: &[Weighted]) -> bool
    ensures { IsTrue result ↔ NegativesFirst body.now }
{
    let mut all_negated = true;
    for part in body {
        if part.lit.negated && !all_negated {
            return false;
        }
        all_negated = part.lit.negated;
    }
    true
}

fn is_name(name: &[u8]) -> bool
    ensures { IsTrue result ↔ IsName name.now }
{
    1 <= name.len()
        && name.iter().all(|byte| *byte != b'\n')
        && name[name.len() - 1] != b'\r'
        && is_short(name.len())
}
