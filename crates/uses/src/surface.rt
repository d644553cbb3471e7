//! What the types of the libraries are to a caller: the traits that they have, and a key of the caller's own. Where one is
//! missing, this crate doesn't build.

pub mod join;
pub mod traits;
