//! Proposals: where a flow, what it leaves at each node, and potentials are led by whatever is quickest.
//!
//! Relaxation, and searches and blocking flows in turn: from all nodes in excess at once (or back from all in deficit) a
//! search for shortest paths, then as many pushes along tight paths as there are, the sides in turn. Near an edit, where
//! few nodes are out of balance, a search from both sides at once finds one path after the other. Where searches go over most
//! of the network for few pushes, paths are pushed along one after the other by a forest of them that is kept. A maximum flow
//! over long ways is pushed by trees. Where much can't be served, the network is parted at a cut first. What stays out of
//! balance goes home: back to where it lay at the start.
//!
//! Proved is that no index, sum or cast leaves its range, and that the tables keep their sizes. Nothing is proved of
//! what is proposed: who takes a proposal up tests whether its potentials certify its flow. After `new` no call can
//! fail for lack of memory, since its type has no such answer; that none is taken is not proved.
#![tactic(auto)]

mod block;
mod greatest;
mod home;
mod kept;
mod look;
mod mending;
mod parted;
mod record;
mod scaling;
mod search;
mod solving;
mod start;
mod tables;
mod trial;
mod wanted;

pub use tables::{Aim, Proposals};
pub use wanted::{FlowChange, Wanted};
