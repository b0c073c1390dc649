// The tests, by what they are about.
mod base_clauses;
mod entailed_clauses;
mod normal_forms;
mod scene;
mod spent_tests;
mod tests;
mod within;
