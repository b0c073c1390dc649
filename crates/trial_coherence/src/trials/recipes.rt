// What the random programs of the testers' trials are made of.
use ground_program::Kind;
use trial_inputs::Recipe;

// A selector more than disjunctions are asked for stays free.
pub static PLAIN: Recipe = Recipe {
    atoms: 8,
    rules: 11,
    kinds: &[
        Kind::Basic,
        Kind::Basic,
        Kind::Constraint,
        Kind::Choice,
        Kind::Weight,
    ],
    names: 6,
};

// Most rules are disjunctive or have one head, so that heads stand in cycles through each other.
pub static DISJUNCTIVE: Recipe = Recipe {
    atoms: 7,
    rules: 12,
    kinds: &[
        Kind::Disjunctive,
        Kind::Basic,
        Kind::Disjunctive,
        Kind::Constraint,
        Kind::Disjunctive,
        Kind::Choice,
        Kind::Basic,
        Kind::Weight,
    ],
    names: 6,
};
