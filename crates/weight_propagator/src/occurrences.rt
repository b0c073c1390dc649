// Where each literal stands, in one array: what stands for one literal is a part of it.
ghost use Rattle.std.specs.Prelude.{◌≡◌, [], ◌∷◌, ◌++◌, get_or, IfOk, OnOk, OnErr};

use clause_store::Lit;
use item_list::{List, NoMemory};
use std::alloc::Global;
use std::marker::Model;

/// A place of a literal in a body that is kept.
#[derive(Debug, Drop, Clone, Copy)]
pub struct Occurrence {
    /// The number of the body.
    pub row: u32,
    /// What the literal weighs there.
    pub weight: u64,
}

/// A part of an array.
#[derive(Debug, Drop, Clone, Copy)]
pub struct Span {
    /// The first place.
    pub start: usize,
    /// The place behind the last one.
    pub end: usize,
}

/// A list of places for each literal, by its code.
#[derive(Debug, Drop)]
pub struct Occurrences {
    entries: Vec<Occurrence>,
    spans: Vec<Span>,
}

impl Model for Occurrences {
    ghost use Rattle.std.specs.Prelude.{List, map, length, All};
    ghost use Rattle.weight_propagator.specs.declared.occurrences.Occurrence.{Occurrence};
    ghost use Rattle.weight_propagator.specs.Places.{part_of, IsSpan};

    ghost Value = { List (List Occurrence) };

    ghost view = { λ it. map (part_of it.entries.items) it.spans.items };

    ghost invariant = { λ it. All (IsSpan (length it.entries.items)) it.spans.items };
}

impl Occurrences {
    /// The same lists in one array.
    pub fn of(alloc: Global, lists: &[List<Occurrence>]) -> Result<Occurrences, NoMemory>
        ensures { IfOk result (λ it. it ≡ lists.now) }
    {
        let mut all = Occurrences::open(alloc);
        for list in lists {
            all.add(list.as_slice())?;
        }
        Ok(all)
    }

    /// The places of a literal. A code past the end has none.
    pub fn at(&self, lit: Lit) -> &[Occurrence]
        ensures { result.now ≡ get_or self.now lit.0 [] }
    {
        match self.spans.as_slice().get(lit.0 as usize) {
            None => &[],
            Some(span) => &self.entries[span.start..span.end],
        }
    }

    // No list.
    fn open(alloc: Global) -> Occurrences
        ensures { result ≡ [] }
    {
        Occurrences {
            entries: Vec::new(alloc),
            spans: Vec::new(alloc),
        }
    }

    // Puts a list last.
    fn add(&mut self, list: &[Occurrence]) -> Result<(), NoMemory>
        ensures ok { OnOk result (self.new ≡ self.old ++ list.now ∷ []) }
        ensures err { OnErr result (self.new ≡ self.old) }
    {
        let start = self.entries.len();
        self.spans.reserve(1)?;
        self.entries.extend_from_slice(list)?;
        let end = self.entries.len();
        self.spans.push_reserved(Span { start, end });
        Ok(())
    }
}
