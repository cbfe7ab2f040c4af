// The closed formulas of the rows, as constants can hold them.
ghost use Rattle.std.specs.Prelude.{◌≡◌};
ghost use Rattle.rule_patterns.specs.Constant.{constant_formula};
ghost use Rattle.row_patterns.specs.Views.{closed_in};
ghost use Rattle.numbered_formulas.specs.Parts.{part_in};

use dom_terms::{DataSort, Sort, ValueSort};
use row_patterns::Closed;

// a term of a closed formula
#[derive(Clone, Copy)]
pub(crate) enum Place {
    // the number zero
    Zero,
    // a variable: how many binders stand between it and its own, and its sort
    Bound(u32, Sort),
}

// a part of a closed formula; a binder has its sort alone
#[derive(Clone, Copy)]
pub(crate) enum Part<'a> {
    Exists(Sort, &'a Part<'a>),
    And(&'a Part<'a>, &'a Part<'a>),
    Join(&'a Part<'a>, &'a Part<'a>),
    Plus(&'a Part<'a>, &'a Part<'a>),
    One(&'a Part<'a>),
    Root(&'a Part<'a>),
    Node(Place, Place, &'a Part<'a>, Place),
    Le(Place, Place),
    Len(Place),
    Var(u32, Sort),
}

const NAME: Sort = Sort::Value(ValueSort::Str);

const NODE: Sort = Sort::Value(ValueSort::Node);

const LIST: Sort = Sort::Value(ValueSort::List);

const INT: Sort = Sort::Value(ValueSort::Int);

const TREE: Sort = Sort::Shape(DataSort::Tree);

const FOREST: Sort = Sort::Shape(DataSort::Forest);

const GROVE: Sort = Sort::Shape(DataSort::Grove);

const ANY_NODE: Part<'static> = Part::Node(
    Place::Bound(3, NAME),
    Place::Bound(2, NODE),
    &Part::Var(1, FOREST),
    Place::Bound(0, LIST),
);

const SOME_NODE: Part<'static> = Part::Exists(
    NAME,
    &Part::Exists(NODE, &Part::Exists(FOREST, &Part::Exists(LIST, &ANY_NODE))),
);

const FIRST_AND_REST: Part<'static> = Part::Exists(
    TREE,
    &Part::Exists(
        FOREST,
        &Part::Join(&Part::One(&Part::Var(1, TREE)), &Part::Var(0, FOREST)),
    ),
);

const ROOT_AND_REST: Part<'static> = Part::Exists(
    TREE,
    &Part::Exists(
        GROVE,
        &Part::Plus(&Part::Root(&Part::Var(1, TREE)), &Part::Var(0, GROVE)),
    ),
);

const SOME_LENGTH: Part<'static> = Part::Exists(
    INT,
    &Part::And(
        &Part::Len(Place::Bound(0, INT)),
        &Part::Le(Place::Zero, Place::Bound(0, INT)),
    ),
);

// the closed formula
pub(crate) fn part_of(closed: Closed) -> Part<'static>
    ensures { part_in result ≡ constant_formula (closed_in closed) }
{
    match closed {
        Closed::SomeNode => SOME_NODE,
        Closed::FirstAndRest => FIRST_AND_REST,
        Closed::RootAndRest => ROOT_AND_REST,
        Closed::SomeLength => SOME_LENGTH,
    }
}
