// The tests, by what they are about.
mod answering;
mod comparing;
mod openings;
mod pairs;
