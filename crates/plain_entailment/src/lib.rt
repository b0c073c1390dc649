//! Whether a clause is entailed, by the definition and with no thought for time: every atom set and
//! every choice of selectors is tried. Other crates test what they compute against it.
#![tactic(auto)]

mod choices;
mod entailment;
mod truth;

pub use entailment::is_entailed;
