use clause_store::Short;

/// One step of an actor. Actors and words are numbered from 0.
#[derive(Debug, Drop, Clone, Copy, PartialEq, Eq)]
pub enum Event {
    /// The candidates of these bits of an in-word are consequences.
    ReportIn {
        /// Whose step it is.
        actor: u32,
        /// The number of the in-word, from 0.
        word: u32,
        /// The bits of the candidates.
        mask: u64,
    },
    /// The candidates of these bits of an out-word aren't consequences.
    ReportOut {
        /// Whose step it is.
        actor: u32,
        /// The number of the out-word, from 0.
        word: u32,
        /// The bits of the candidates.
        mask: u64,
    },
    /// There is an answer set, or there is none.
    ReportState {
        /// Whose step it is.
        actor: u32,
        /// Whether there is one.
        coherent: bool,
    },
    /// A look at a word: 0 is that of the flags, then come the in-words and the out-words.
    ReadWord {
        /// Whose step it is.
        actor: u32,
        /// The place of the word.
        word: u32,
    },
    /// A clause is put last in the log.
    Append {
        /// Whose step it is.
        actor: u32,
        /// The clause.
        clause: Short,
    },
    /// A look at a place of the log.
    ReadPlace {
        /// Whose step it is.
        actor: u32,
        /// The place, from 0.
        place: u32,
    },
    /// An actor tells another all that it has seen.
    Copy {
        /// Whose step it is.
        from: u32,
        /// Who is told.
        to: u32,
    },
    /// An actor takes in all that another has seen.
    Meet {
        /// Whose step it is.
        into: u32,
        /// Whose knowledge is taken in.
        from: u32,
    },
}
