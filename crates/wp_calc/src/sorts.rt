// The sorts of new variables, by short names.
use dom_terms::{DataSort, Sort, ValueSort};

/// That of node numbers.
pub(crate) const NODE: Sort = Sort::Value(ValueSort::Node);

/// That of texts.
pub(crate) const STR: Sort = Sort::Value(ValueSort::Str);

/// That of list numbers.
pub(crate) const LIST: Sort = Sort::Value(ValueSort::List);

/// That of integers.
pub(crate) const INT: Sort = Sort::Value(ValueSort::Int);

/// That of trees.
pub(crate) const TREE: Sort = Sort::Shape(DataSort::Tree);

/// That of forests.
pub(crate) const FOREST: Sort = Sort::Shape(DataSort::Forest);

/// That of groves.
pub(crate) const GROVE: Sort = Sort::Shape(DataSort::Grove);

/// That of contexts with a hole for a tree that give a grove.
pub(crate) const CONTEXT: Sort = Sort::Context(DataSort::Tree, DataSort::Grove);
