// The tests, by what they are about.
mod known_parts;
mod parts;
mod random_sets;
mod scene;
mod units;
