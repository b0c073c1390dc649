// The tests, by what they are about.
mod again;
mod at_once;
mod client_at_once;
mod facts;
mod first_read;
mod machine;
mod offers;
mod one_seat;
mod scene;
