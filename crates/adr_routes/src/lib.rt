//! The paths that are served: which kinds there are, what may be done with each, and which one a text is.
#![tactic(auto)]

mod ids;
pub mod laws;
mod methods;
mod names;
mod path;
mod place;
mod routes;
mod words;

pub use methods::Methods;
pub use path::{Path, place_of};
pub use place::{One, Place, Root, Two, methods_of, text_of};
pub use routes::Routes;
pub use words::{id_from, text_from};
