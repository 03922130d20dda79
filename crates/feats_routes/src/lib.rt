//! The shortest routes by which the selected members of a plan lead to a package, as text or as JSON objects.
#![tactic(auto)]

mod kinds;
mod lines;
mod objects;
mod routes;
mod shown;

pub use routes::routes_text;
