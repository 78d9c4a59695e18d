//! Laws of best plans: how far edits move them, what potentials say of prices, and the minimum cut of a maximum flow.
#![tactic(auto)]

mod minimum_cut;
mod prices;
mod stability;

pub use minimum_cut::potentials_show_a_minimum_cut;
pub use prices::{potentials_are_prices, wider_bounds_never_cost};
pub use stability::{edits_move_little, many_edits_move_little};
