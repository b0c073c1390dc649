// Many short lists of numbers in one array: each list is a part of it.
ghost use Rattle.std.specs.Prelude.{◌≡◌, [], ◌∷◌, ◌++◌, get_or, IfOk, OnOk, OnErr};

use item_list::{List, NoMemory};
use std::alloc::Global;
use std::marker::Model;

/// A part of an array.
#[derive(Debug, Drop, Clone, Copy)]
pub struct Span {
    /// The first place.
    pub start: usize,
    /// The place behind the last one.
    pub end: usize,
}

/// Lists of numbers, by their places.
#[derive(Debug, Drop)]
pub struct Lists {
    entries: Vec<u32>,
    spans: Vec<Span>,
}

impl Model for Lists {
    ghost use Rattle.std.specs.Prelude.{ℕ, List, map, length, All};
    ghost use Rattle.unfounded_sets.specs.Parts.{part_of, IsSpan};

    ghost Value = { List (List ℕ) };

    ghost view = { λ it. map (part_of it.entries.items) it.spans.items };

    ghost invariant = { λ it. All (IsSpan (length it.entries.items)) it.spans.items };
}

impl Lists {
    /// The same lists in one array.
    pub fn of(alloc: Global, lists: &[List<u32>]) -> Result<Lists, NoMemory>
        ensures { IfOk result (λ it. it ≡ lists.now) }
    {
        let mut all = Lists::open(alloc);
        for list in lists {
            all.add(list.as_slice())?;
        }
        Ok(all)
    }

    /// The list at a place. Past the end there are empty ones.
    pub fn at(&self, place: u32) -> &[u32]
        ensures { result.now ≡ get_or self.now place [] }
    {
        match self.spans.as_slice().get(place as usize) {
            None => &[],
            Some(span) => &self.entries[span.start..span.end],
        }
    }

    // No list.
    fn open(alloc: Global) -> Lists
        ensures { result ≡ [] }
    {
        Lists {
            entries: Vec::new(alloc),
            spans: Vec::new(alloc),
        }
    }

    // Puts a list last.
    fn add(&mut self, list: &[u32]) -> Result<(), NoMemory>
        ensures ok { OnOk result (self.new ≡ self.old ++ list.now ∷ []) }
        ensures err { OnErr result (self.new ≡ self.old) }
    {
        let start = self.entries.len();
        self.spans.reserve(1)?;
        self.entries.extend_from_slice(list)?;
        let end = self.entries.len();
        self.spans.push_reserved(Span { start, end });
        Ok(())
    }
}
