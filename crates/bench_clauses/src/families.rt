// Families of clause sets, by number.
ghost use Rattle.std.specs.Prelude.{◌<◌, ◌≤◌, ◌^◌};

use crate::problem::Problem;
use clause_store::Lit;
use item_list::NoMemory;
use std::alloc::Global;

/// A family of clause sets.
#[derive(Debug, Drop, Clone, Copy, PartialEq, Eq)]
pub enum Family {
    /// Clauses of three random literals: how many variables, how many clauses for each hundred of
    /// them, and the seed.
    Random,
    /// One pigeon more than there are holes, and no two in one hole: how many holes.
    Pigeons,
    /// Variables each of which implies the next, in so many chains of so many variables, the first
    /// ones of which aren't all false.
    Chains,
}

/// A problem of a family, by up to three numbers. Numbers that are too great are lowered.
pub fn problem_of(alloc: Global, family: Family, numbers: [u32; 3]) -> Result<Problem, NoMemory> {
    let [first, second, third] = numbers;
    match family {
        Family::Random => random(alloc, first, second, third),
        Family::Pigeons => pigeons(alloc, first),
        Family::Chains => chains(alloc, first, second),
    }
}

/// Numbers that look random and are the same for the same seed.
#[derive(Debug, Drop)]
struct Draws {
    state: u64,
}

impl Draws {
    /// The next number below `limit`.
    fn below(&mut self, limit: u32) -> u32
        requires { 0 < limit }
        ensures { result < limit }
    {
        self.state = self
            .state
            .wrapping_mul(6364136223846793005)
            .wrapping_add(1442695040888963407);
        (self.state >> 33) as u32 % limit
    }
}

/// Random clauses of three literals.
fn random(alloc: Global, vars: u32, share: u32, seed: u32) -> Result<Problem, NoMemory> {
    let vars = vars.clamp(3, 1 << 24);
    let count = u64::from(vars) * u64::from(share) / 100;
    let mut draws = Draws {
        state: u64::from(seed),
    };
    let mut problem = Problem::open(vars);
    for _ in 0..count {
        let lits = [
            random_lit(vars, &mut draws),
            random_lit(vars, &mut draws),
            random_lit(vars, &mut draws),
        ];
        problem.put(alloc, &lits)?;
    }
    Ok(problem)
}

/// A literal over the variables 1 to `vars`.
fn random_lit(vars: u32, draws: &mut Draws) -> Lit
    requires some { 0 < vars }
    requires few { vars < 2 ^ 30 }
{
    Lit(2 + draws.below(2 * vars))
}

/// Pigeons and holes. The variable of a pigeon and a hole says that it is in that hole.
fn pigeons(alloc: Global, holes: u32) -> Result<Problem, NoMemory> {
    let holes = holes.clamp(1, 1000);
    let mut problem = Problem::open((holes + 1) * holes);
    for pigeon in 0..holes + 1 {
        put_pigeon(alloc, &mut problem, holes, pigeon)?;
    }
    for hole in 0..holes {
        for pigeon in 0..holes + 1 {
            put_apart(alloc, &mut problem, holes, hole, pigeon)?;
        }
    }
    Ok(problem)
}

/// The pigeon is in some hole.
fn put_pigeon(alloc: Global, problem: &mut Problem, holes: u32, pigeon: u32) -> Result<(), NoMemory>
    requires few { holes ≤ 1000 }
    requires there { pigeon ≤ holes }
{
    let mut lits = Vec::new(alloc);
    for hole in 0..holes {
        lits.push(in_hole(holes, hole, pigeon))?;
    }
    problem.put(alloc, lits.as_slice())
}

/// The pigeon isn't in the hole where one before it is.
fn put_apart(
    alloc: Global,
    problem: &mut Problem,
    holes: u32,
    hole: u32,
    pigeon: u32,
) -> Result<(), NoMemory>
    requires few { holes ≤ 1000 }
    requires hole { hole < holes }
    requires pigeon { pigeon ≤ holes }
{
    for before in 0..pigeon {
        let one = in_hole(holes, hole, before).negated();
        let two = in_hole(holes, hole, pigeon).negated();
        problem.put(alloc, &[one, two])?;
    }
    Ok(())
}

/// The pigeon is in the hole.
fn in_hole(holes: u32, hole: u32, pigeon: u32) -> Lit
    requires few { holes ≤ 1000 }
    requires hole { hole < holes }
    requires pigeon { pigeon ≤ holes }
{
    Lit(2 * (pigeon * holes + hole + 1))
}

/// Chains of implications, of which one at least begins with a true variable.
fn chains(alloc: Global, count: u32, length: u32) -> Result<Problem, NoMemory> {
    let count = count.clamp(1, 1 << 12);
    let length = length.clamp(1, 1 << 12);
    let mut problem = Problem::open(count * length);
    let mut firsts = Vec::new(alloc);
    for chain in 0..count {
        let before = (chain * length).min(1 << 24);
        put_chain(alloc, &mut problem, before, length)?;
        firsts.push(Lit(2 * (before + 1)))?;
    }
    problem.put(alloc, firsts.as_slice())?;
    Ok(problem)
}

/// Each variable after `before` implies the next one, as far as the chain goes.
fn put_chain(alloc: Global, problem: &mut Problem, before: u32, length: u32) -> Result<(), NoMemory>
    requires before { before ≤ 2 ^ 24 }
    requires length { length ≤ 2 ^ 12 }
{
    for at in 1..length {
        let var = before + at;
        problem.put(alloc, &[Lit(2 * var + 1), Lit(2 * (var + 1))])?;
    }
    Ok(())
}
