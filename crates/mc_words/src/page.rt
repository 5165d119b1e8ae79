//! Pages: cut, looked along, and moved.
pub(crate) mod cuts;
pub(crate) mod looks;
pub(crate) mod moves;
