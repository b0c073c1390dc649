// The tests, by what they are about.
mod plain;
mod scene;
mod tests;
mod within;
