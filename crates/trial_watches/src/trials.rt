// The tests, by what they are about.
mod clauses;
mod laid;
mod late;
mod looks;
mod plain;
mod scene;
