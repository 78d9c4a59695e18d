//! What a search knows of a node.

use containers::NO_PLACE;

/// What a search and the walks after it know of a node.
#[derive(Clone, Copy)]
pub struct NodeRecord {
    /// The number of arcs of the best path so far; later the level of the node.
    pub depth: u32,
    /// The place, at this node, of the last arc of that path.
    pub parent: u32,
    /// How many of the node's ends walks have done with.
    pub current: u32,
    /// How often it got a new level.
    pub renewed: u8,
    /// A search found it out of reach of all nodes on the other side.
    pub gone: bool,
}

impl NodeRecord {
    /// What is known of a node at first.
    pub const NEW: NodeRecord = NodeRecord {
        depth: 0,
        parent: NO_PLACE,
        current: 0,
        renewed: 0,
        gone: false,
    };
}
