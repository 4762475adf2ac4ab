// Lines through the mesh: all branches traced, their crossings and paths.
pub(crate) mod lines;
/// Every line traced, or refusal 10.
pub mod routes;
