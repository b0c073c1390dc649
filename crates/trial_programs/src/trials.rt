// The tests, by what they are about.
mod answer_sets;
mod lists;
mod models;
mod scene;
mod validity;
