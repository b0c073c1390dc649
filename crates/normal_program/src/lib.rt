//! The words of the search: normal forms of programs, what their bodies and rules mean, base
//! clauses, loop clauses and spent tests.
#![tactic(auto)]

mod laws;
mod normal;
mod spent;
mod variables;

pub use laws::{
    base_clauses_are_entailed, base_clauses_are_over_atoms_and_bodies, base_clauses_make_models,
    grounded_is_entailed, local_clauses_are_entailed, normal_form_is_in_range,
    normal_form_means_the_program, one_normal_form, other_selectors_do_not_matter,
    wide_tests_count_units,
};
pub use normal::{Bodies, BodyOf, MOST_VARIABLES, Normal, NormalRule, NormalRules, Part, Parts};
pub use spent::{SpentTest, Tests};
pub use variables::literal_of;
