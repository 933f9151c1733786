// The register page: a module's presence as 64 bytes, which the host reads and writes.
#![tactic(auto)]

mod flags;
pub mod host;
mod registers;
pub mod with_page;
