// Address translation and shadow tables, as definitions; the crate `shadow` has the code.
#![tactic(auto)]

// How many entries a shadow table has, and how many pages a user's address can name.
pub const ENTRIES: usize = 1024;
