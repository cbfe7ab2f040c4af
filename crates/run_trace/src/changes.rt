// What a step of a run changes.

/// A change, with the number of steps taken up to and with it. The number 0 stands for no parent
/// and for no reference child.
#[derive(Clone, Copy, Debug, PartialEq, Eq)]
pub enum Change {
    /// A node was made.
    Created {
        /// The steps taken up to and with it.
        step: u32,
        /// The number of the node.
        node: u32,
        /// The number of its list of children.
        list: u32,
    },
    /// A node was put among the children of another.
    Moved {
        /// The steps taken up to and with it.
        step: u32,
        /// The number of the node.
        node: u32,
        /// The number of its parent before.
        from: u32,
        /// The number of its parent after.
        to: u32,
        /// The number of the child before which it goes.
        before: u32,
    },
    /// A node was taken from its parent and put to the roots.
    Removed {
        /// The steps taken up to and with it.
        step: u32,
        /// The number of the node.
        node: u32,
        /// The number of its parent before.
        from: u32,
    },
}

/// Changes, in order.
pub type Changes = Vec<Change>;
