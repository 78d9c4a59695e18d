//! Containers of nodes, of the arcs of a walk and of other places of tables, and tables that are made together.
#![tactic(auto)]

mod frontier;
mod heap;
mod nodes;
mod noted;
mod pairs;
mod places;
mod queue;
mod walk;

pub use frontier::{FAR, Frontier, State};
pub use heap::{Entry, Heap};
pub use nodes::Nodes;
pub use noted::Noted;
pub use pairs::both;
pub use places::{NO_PLACE, Places};
pub use queue::{Queue, Waiting};
pub use walk::{Left, Walk};
