//! Clients of a board: threads outside the search that read bounds at any time, learn what others
//! have seen, and offer answer sets, which are taken only after a test.
#![tactic(auto)]

mod client;
mod offered;

pub use client::Client;
pub use offered::Offered;
