// Which bodies to try when an atom is founded. For each body a counter has how many of its positive
// literals are founded, and a body is tried once these can be enough. These are hints alone: a rule
// founds its heads only where its body is summed anew. So nothing is proved of them.
use item_list::NoMemory;
use normal_program::{BodyOf, Normal};
use std::alloc::Global;

/// Counters, and the founded atoms that are still to be counted.
#[derive(Debug, Drop)]
pub struct Hints {
    /// How many positive literals of each body are founded.
    counts: Vec<u32>,
    /// How many there must be at least.
    needs: Vec<u32>,
    /// The atoms that were founded, in order.
    queue: Queue,
    /// How many atoms were founded anew.
    refounded: u64,
}

/// Atoms in a fixed room: one that finds none is left out.
#[derive(Debug, Drop)]
struct Queue {
    atoms: Vec<u32>,
    first: usize,
    end: usize,
}

impl Hints {
    /// The hints for a normal form.
    pub fn open(alloc: Global, normal: &Normal) -> Result<Hints, NoMemory> {
        let counts = vec![in alloc; 0; normal.bodies.len()]?;
        let needs = needs_of(alloc, normal)?;
        let atoms = vec![in alloc; 0; normal.atoms as usize]?;
        Ok(Hints {
            counts,
            needs,
            queue: Queue {
                atoms,
                first: 0,
                end: 0,
            },
            refounded: 0,
        })
    }

    /// Whether the founded positive literals of a body can be enough.
    pub fn may_fire(&self, body: u32) -> bool {
        number_at(self.counts.as_slice(), body) >= number_at(self.needs.as_slice(), body)
    }

    /// One positive literal of a body more is founded. Whether they can be enough.
    pub fn raise(&mut self, body: u32) -> bool {
        let at = body as usize;
        if at < self.counts.len() {
            self.counts[at] = self.counts[at].saturating_add(1);
        }
        self.may_fire(body)
    }

    /// One positive literal of each of these bodies less is founded.
    pub fn lower_all(&mut self, bodies: &[u32]) {
        for body in bodies {
            let at = *body as usize;
            if at < self.counts.len() {
                self.counts[at] = self.counts[at].saturating_sub(1);
            }
        }
    }

    /// Notes that an atom was founded.
    pub fn note(&mut self, atom: u32) {
        self.refounded = self.refounded.saturating_add(1);
        self.queue.push(atom);
    }

    /// The next founded atom that is still to be counted.
    pub fn next(&mut self) -> Option<u32> {
        self.queue.pop()
    }

    /// How many atoms were founded anew.
    pub fn refounded(&self) -> u64 {
        self.refounded
    }
}

impl Queue {
    // Puts an atom last.
    fn push(&mut self, atom: u32) {
        if self.end < self.atoms.len() {
            self.atoms[self.end] = atom;
            self.end += 1;
        }
    }

    // Takes the first atom. Once there is none the whole room is free again.
    fn pop(&mut self) -> Option<u32> {
        if self.first >= self.end {
            self.first = 0;
            self.end = 0;
            return None;
        }
        let atom = self.atoms.get(self.first).copied();
        self.first += 1;
        atom
    }
}

fn number_at(numbers: &[u32], at: u32) -> u32 {
    numbers.get(at as usize).copied().unwrap_or(0)
}

// How many founded positive literals each body needs at least.
fn needs_of(alloc: Global, normal: &Normal) -> Result<Vec<u32>, NoMemory> {
    let mut needs = Vec::new(alloc);
    for body in normal.bodies.as_slice() {
        needs.push(need_of(body))?;
    }
    Ok(needs)
}

// What a body lacks beside its negative literals, over the greatest weight of a positive one.
fn need_of(body: &BodyOf) -> u32 {
    let mut left = u64::from(body.bound);
    let mut greatest = 1;
    for part in body.parts.as_slice() {
        if part.lit.negated {
            left = left.saturating_sub(part.weight);
        } else if part.weight > greatest {
            greatest = part.weight;
        }
    }
    whole_parts(left, greatest)
}

// How many parts of a size make up an amount.
fn whole_parts(amount: u64, size: u64) -> u32 {
    let full = amount.checked_div(size).unwrap_or(0);
    let rest = amount.saturating_sub(full.saturating_mul(size));
    let parts = if rest > 0 {
        full.saturating_add(1)
    } else {
        full
    };
    u32::try_from(parts).unwrap_or(u32::MAX)
}
