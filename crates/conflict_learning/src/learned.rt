ghost use Rattle.std.specs.Prelude.{◌≡◌, []};

use crate::marks::Marks;
use clause_store::{Clause, Lit, Var};
use item_list::List;

/// What a conflict teaches.
#[derive(Debug, Drop)]
pub struct Learned {
    /// A clause that is false now.
    pub clause: Clause,
    /// The level to go back to. There the clause forces its asserting literal.
    pub back: u32,
    /// The one literal of the clause that is of the present level.
    pub asserting: Lit,
    /// The variables that the last analysis visited.
    pub(crate) visited: List<Var>,
    /// The table of marks that the next conflict finds.
    pub(crate) marks: Marks,
    /// The table of marks of literals that aren't covered.
    pub(crate) uncovered: Marks,
    /// The room for the literals that are judged.
    pub(crate) judged: List<Lit>,
}

impl Learned {
    /// A place for what conflicts teach, with the empty clause. It takes no memory.
    pub fn open() -> Learned
        ensures { result.clause ≡ [] }
    {
        Learned {
            clause: Clause::open(),
            back: 0,
            asserting: Lit(0),
            visited: List::open(),
            marks: Marks::open(),
            uncovered: Marks::open(),
            judged: List::open(),
        }
    }

    /// The variables that the last analysis visited, each once: those of the literals that it
    /// resolved and of those that it had before superfluous ones went.
    pub fn visited(&self) -> &[Var]
        ensures { result.now ≡ self.now.visited }
    {
        self.visited.as_slice()
    }
}
