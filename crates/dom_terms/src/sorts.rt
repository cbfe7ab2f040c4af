/// A sort of values.
#[derive(Clone, Copy, Debug, PartialEq, Eq, Hash)]
pub enum ValueSort {
    /// Node numbers, and the null node.
    Node,
    /// Numbers of children lists, and the null list.
    List,
    /// Integers.
    Int,
    /// Texts.
    Str,
    /// Truth values.
    Bool,
}

/// A sort of data.
#[derive(Clone, Copy, Debug, PartialEq, Eq, Hash)]
pub enum DataSort {
    /// One tree.
    Tree,
    /// A list of trees, in order.
    Forest,
    /// Trees beside one another, in no order.
    Grove,
}

/// A sort of values, of shapes or of contexts.
#[derive(Clone, Copy, Debug, PartialEq, Eq, Hash)]
pub enum Sort {
    /// Values.
    Value(ValueSort),
    /// Trees, forests or groves.
    Shape(DataSort),
    /// Contexts: the sort of the hole, and the sort of what a context gives.
    Context(DataSort, DataSort),
}
