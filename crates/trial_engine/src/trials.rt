// The tests, by what they are about.
mod all_assignments;
mod asking;
mod clauses;
mod counting;
mod every_set;
mod listed;
mod memory;
mod propagation;
mod random;
mod rows;
mod scene;
mod selectors;
mod stores;
mod unit_checks;
mod units;
mod whole_way;
mod worked;
