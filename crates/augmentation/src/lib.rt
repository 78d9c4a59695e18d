//! Flow sent from nodes in excess to nodes in deficit: pushes along the shortest paths that searches found, a search and
//! many pushes in turn until no node in excess reaches one in deficit, the greatest potentials of the flow, and the sets of
//! nodes that residual arcs reach. A flow that another method wants is taken where its potentials certify it.
//!
//! A table of nodes has one entry a node, by the node's number, and entry 0 stands for no node; a table of arcs has one
//! entry a row of the graph. Flow and excess are in units of flow; costs, potentials and distances in cost a unit of flow.
#![tactic(auto)]

mod adoption;
mod attempt;
mod augment;
mod certificate;
mod cut;
mod held;
mod near;
mod potentials;
mod pushes;
mod rounds;
mod scratch;
mod trails;

pub use adoption::{adopt, push_all, push_proposed};
pub use attempt::Attempt;
pub use certificate::certifies;
pub use cut::{mark_cut, show_cut};
pub use near::prepare;
pub use rounds::finish;
pub use scratch::Scratch;
