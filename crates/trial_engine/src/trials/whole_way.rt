// The whole way from the text of a program to a clause that was learned from it.
ghost use Rattle.std.specs.Prelude.{IfSome};
ghost use Rattle.ground_program.specs.Program.{IsProgram};
ghost use Rattle.normal_program.specs.Limit.{IsNormal};
ghost use Rattle.normal_program.specs.Normal.{IsNormalFormOf};

use crate::trials::asking::{MANY, has_core};
use crate::trials::listed::Manner;
use crate::trials::scene::{Posed, Scene};
use crate::trials::unit_checks::clauses_up_to;
use clause_store::{Clause, Lit, Store, Units};
use completion::complete;
use ground_program::Program;
use item_list::NoMemory;
use lparse_reader::parse;
use normal_program::Normal;
use plain_entailment::is_entailed;
use rule_normaliser::normalise;
use std::alloc::Global;
use std::test::Fail;

/// Atoms 2 and 3 may be chosen, but not both, and not 2 without 3. So 2 is in no answer set, and 3
/// is in one of two.
static TEXT: &[u8] = b"3 2 2 3 0 0\n1 1 2 0 2 3\n1 1 2 1 3 2\n0\n2 a\n3 b\n0\nB+\n0\nB-\n1\n0\n1\n";

/// Whether a search that assumes atom 2 learns that it is false, and the slow check agrees.
fn a_text_teaches_a_clause(alloc: Global) -> Result<bool, NoMemory> {
    match program_of(alloc, TEXT) {
        None => Ok(false),
        Some(program) => is_taught(alloc, &program),
    }
}

/// The program of a text. None is a text that is too long or refused, or want of memory.
fn program_of(alloc: Global, text: &[u8]) -> Option<Program>
    ensures { IfSome result IsProgram }
{
    if text.len() > 67108864 {
        return None;
    }
    parse(alloc, text).ok()
}

/// Whether the clause that atom 2 is false is learned, and entailed as that for atom 3 isn't.
fn is_taught(alloc: Global, program: &Program) -> Result<bool, NoMemory>
    requires { IsProgram program.now }
{
    match normalise(alloc, program) {
        Err(_) => Ok(false),
        Ok(normal) => {
            let learned = is_learned(alloc, &normal)?;
            let entailed = is_told(alloc, program, &normal, Lit(5))?;
            let other = is_told(alloc, program, &normal, Lit(7))?;
            Ok(learned && entailed && !other)
        }
    }
}

/// Whether a search that assumes atom 2 counts one clause, that it is false, and answers with it.
fn is_learned(alloc: Global, normal: &Normal) -> Result<bool, NoMemory>
    requires { IsNormal normal.now }
{
    let mut scene = scene_of(alloc, normal)?;
    let refuted = has_core(alloc, &mut scene, &[4], &[4])?;
    Ok(refuted && is_one(scene.counted(), Lit(5)))
}

/// Whether a clause has this one literal.
fn is_lit(clause: &Clause, lit: Lit) -> bool {
    clause.as_slice() == [lit].as_slice()
}

/// Whether there is one clause, of this one literal.
fn is_one(clauses: &[Clause], lit: Lit) -> bool {
    match clauses {
        [one] => is_lit(one, lit),
        _ => false,
    }
}

/// An engine over the base clauses of a normal form of fewer than 256 variables.
fn scene_of(alloc: Global, normal: &Normal) -> Result<Scene, NoMemory>
    requires { IsNormal normal.now }
{
    let mut store = Store::open();
    complete(alloc, normal, &mut store)?;
    let base = clauses_up_to(alloc, &store, store.len())?;
    let listed = Units::open();
    let posed = Posed {
        vars: u8::try_from(normal.variables()).unwrap_or(0),
        base: &base,
        listed: &listed,
        manner: Manner::AtTheEnd,
        limit: MANY,
    };
    Scene::open(alloc, posed)
}

/// Whether the slow check tells that the clause of one literal is entailed.
fn is_told(alloc: Global, program: &Program, normal: &Normal, lit: Lit) -> Result<bool, NoMemory>
    requires { IsNormalFormOf normal.now program.now }
{
    let clause = Clause::from_slice(alloc, &[lit])?;
    let none = Units::open();
    is_entailed(alloc, program, normal, &none, &clause)
}

#[test]
fn a_text_teaches_that_an_atom_is_false(rt: HostRuntime) -> Result<(), Fail> {
    assert!(rt; a_text_teaches_a_clause(rt.alloc())?);
    Ok(())
}
