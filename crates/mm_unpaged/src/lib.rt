//! The unpaged store: each page stands in a box of its own, and no access ever fails or waits.
//!
//! The page of a private key is kept at the key's own place, beside the key that the place names.
//! So a page comes and goes without a change of the map, and `add` takes no memory. The page of a
//! file is kept by its block.
#![tactic(auto)]

mod areas;
mod boxes;
mod files;
mod places;
mod unpaged;

pub use unpaged::Unpaged;
