// The rows of the table, command by command. The places are those of the new variables, in the
// order in which a row brings them; of a read and of an assignment the first is the value's, and of
// a move the grove's.
use crate::rows::Row;
use crate::rows::Row::{
    And, App, EmptyForest, EmptyGrove, Eq, Exists, Hole, HoleAdj, Is, Join, Le, Len, Node, One, Or,
    Plus, PlusHole, Root, True, Var,
};
use crate::rows::RowTerm::{First, Int, New, NullNode, Second, Third, Value};
use crate::sorts::{CONTEXT, FOREST, GROVE, INT, LIST, NODE, STR, TREE};
use dom_terms::{DataSort, ValueSort};

// ASSIGNMENT AND READS
/// The row of $v = E.
pub(crate) const IS_VALUE: Row<'static> = Eq(Value, First);

/// The row of what nodeName says of its value.
pub(crate) const HAS_NAME: Row<'static> = Exists(
    1,
    LIST,
    &App(
        DataSort::Tree,
        &True,
        &Node(Value, First, &True, New(1, ValueSort::List)),
    ),
);

/// The row of what childNodes says.
pub(crate) const HAS_CHILDREN: Row<'static> = Exists(
    1,
    STR,
    &App(
        DataSort::Tree,
        &True,
        &Node(New(1, ValueSort::Str), First, &True, Value),
    ),
);

const CHILD: Row<'static> = Node(
    New(2, ValueSort::Str),
    First,
    &True,
    New(4, ValueSort::List),
);

const BELOW: Row<'static> = Exists(
    1,
    STR,
    &Exists(
        2,
        STR,
        &Exists(
            3,
            LIST,
            &Exists(
                4,
                LIST,
                &App(
                    DataSort::Tree,
                    &True,
                    &Node(
                        New(1, ValueSort::Str),
                        Value,
                        &Join(&Join(&True, &One(&CHILD)), &True),
                        New(3, ValueSort::List),
                    ),
                ),
            ),
        ),
    ),
);

const AT_ROOT: Row<'static> = And(
    &Exists(
        5,
        STR,
        &Exists(
            6,
            LIST,
            &Plus(
                &Root(&Node(
                    New(5, ValueSort::Str),
                    First,
                    &True,
                    New(6, ValueSort::List),
                )),
                &True,
            ),
        ),
    ),
    &Eq(Value, NullNode),
);

/// The row of what parentNode says.
pub(crate) const HAS_PARENT: Row<'static> = Or(&BELOW, &AT_ROOT);

const ITEM: Row<'static> = Node(
    New(3, ValueSort::Str),
    Value,
    &True,
    New(4, ValueSort::List),
);

const THERE: Row<'static> = Exists(
    1,
    STR,
    &Exists(
        2,
        NODE,
        &Exists(
            3,
            STR,
            &Exists(
                4,
                LIST,
                &App(
                    DataSort::Tree,
                    &True,
                    &Node(
                        New(1, ValueSort::Str),
                        New(2, ValueSort::Node),
                        &Join(&Join(&Len(Second), &One(&ITEM)), &True),
                        First,
                    ),
                ),
            ),
        ),
    ),
);

const OUTSIDE: Row<'static> = Or(&Le(Second, Int(-1)), &Le(New(7, ValueSort::Int), Second));

const ABSENT: Row<'static> = And(
    &Exists(
        5,
        STR,
        &Exists(
            6,
            NODE,
            &Exists(
                7,
                INT,
                &And(
                    &App(
                        DataSort::Tree,
                        &True,
                        &Node(
                            New(5, ValueSort::Str),
                            New(6, ValueSort::Node),
                            &Len(New(7, ValueSort::Int)),
                            First,
                        ),
                    ),
                    &OUTSIDE,
                ),
            ),
        ),
    ),
    &Eq(Value, NullNode),
);

/// The row of what item says.
pub(crate) const HAS_ITEM: Row<'static> = Or(&THERE, &ABSENT);

// THE NEW ROOT
/// The row of the context that adds the new root.
pub(crate) const NEW_ROOT: Row<'static> = PlusHole(
    &Hole(DataSort::Grove),
    &Root(&Node(
        First,
        New(0, ValueSort::Node),
        &EmptyForest,
        New(1, ValueSort::List),
    )),
);

// MOVES
const APPEND_BEFORE: Row<'static> = App(
    DataSort::Tree,
    &Var(1, CONTEXT),
    &Node(
        New(2, ValueSort::Str),
        First,
        &Var(3, FOREST),
        New(4, ValueSort::List),
    ),
);

const APPEND_AFTER: Row<'static> = App(
    DataSort::Tree,
    &Var(1, CONTEXT),
    &Node(
        New(2, ValueSort::Str),
        First,
        &Join(&Var(3, FOREST), &One(&Var(5, TREE))),
        New(4, ValueSort::List),
    ),
);

const APPEND_OUT: Row<'static> = Or(
    &App(
        DataSort::Forest,
        &HoleAdj(&EmptyForest, &APPEND_BEFORE),
        &One(&Var(5, TREE)),
    ),
    &App(
        DataSort::Grove,
        &HoleAdj(&EmptyGrove, &APPEND_BEFORE),
        &Root(&Var(5, TREE)),
    ),
);

const APPEND_TREE: Row<'static> = Is(
    5,
    TREE,
    &Exists(
        6,
        STR,
        &Exists(
            7,
            LIST,
            &Node(
                New(6, ValueSort::Str),
                Second,
                &True,
                New(7, ValueSort::List),
            ),
        ),
    ),
);

/// The row of what appendChild says of the grove after it.
pub(crate) const APPENDED: Row<'static> = Exists(
    1,
    CONTEXT,
    &Exists(
        2,
        STR,
        &Exists(
            3,
            FOREST,
            &Exists(
                4,
                LIST,
                &Exists(
                    5,
                    TREE,
                    &And(
                        &And(&APPEND_OUT, &APPEND_TREE),
                        &Is(0, GROVE, &APPEND_AFTER),
                    ),
                ),
            ),
        ),
    ),
);

const REMOVE_BEFORE: Row<'static> = App(
    DataSort::Tree,
    &Var(1, CONTEXT),
    &Node(
        New(2, ValueSort::Str),
        First,
        &Join(&Join(&Var(3, FOREST), &One(&Var(6, TREE))), &Var(4, FOREST)),
        New(5, ValueSort::List),
    ),
);

const REMOVE_AFTER: Row<'static> = Plus(
    &App(
        DataSort::Tree,
        &Var(1, CONTEXT),
        &Node(
            New(2, ValueSort::Str),
            First,
            &Join(&Var(3, FOREST), &Var(4, FOREST)),
            New(5, ValueSort::List),
        ),
    ),
    &Root(&Var(6, TREE)),
);

const REMOVE_TREE: Row<'static> = Is(
    6,
    TREE,
    &Exists(
        7,
        STR,
        &Exists(
            8,
            LIST,
            &Node(
                New(7, ValueSort::Str),
                Second,
                &True,
                New(8, ValueSort::List),
            ),
        ),
    ),
);

/// The row of what removeChild says of it.
pub(crate) const REMOVED: Row<'static> = Exists(
    1,
    CONTEXT,
    &Exists(
        2,
        STR,
        &Exists(
            3,
            FOREST,
            &Exists(
                4,
                FOREST,
                &Exists(
                    5,
                    LIST,
                    &Exists(
                        6,
                        TREE,
                        &And(
                            &And(&REMOVE_BEFORE, &REMOVE_TREE),
                            &Is(0, GROVE, &REMOVE_AFTER),
                        ),
                    ),
                ),
            ),
        ),
    ),
);

// INSERTION: the names after those of appendChild
const INSERT_BEFORE: Row<'static> = App(
    DataSort::Tree,
    &Var(8, CONTEXT),
    &Node(
        New(9, ValueSort::Str),
        First,
        &Join(
            &Join(&Var(10, FOREST), &One(&Var(14, TREE))),
            &Var(11, FOREST),
        ),
        New(12, ValueSort::List),
    ),
);

const INSERT_AFTER: Row<'static> = App(
    DataSort::Tree,
    &Var(8, CONTEXT),
    &Node(
        New(9, ValueSort::Str),
        First,
        &Join(
            &Join(
                &Join(&Var(10, FOREST), &One(&Var(13, TREE))),
                &One(&Var(14, TREE)),
            ),
            &Var(11, FOREST),
        ),
        New(12, ValueSort::List),
    ),
);

const INSERT_OUT: Row<'static> = Or(
    &App(
        DataSort::Forest,
        &HoleAdj(&EmptyForest, &INSERT_BEFORE),
        &One(&Var(13, TREE)),
    ),
    &App(
        DataSort::Grove,
        &HoleAdj(&EmptyGrove, &INSERT_BEFORE),
        &Root(&Var(13, TREE)),
    ),
);

const INSERT_TREE: Row<'static> = Is(
    13,
    TREE,
    &Exists(
        15,
        STR,
        &Exists(
            16,
            LIST,
            &Node(
                New(15, ValueSort::Str),
                Second,
                &True,
                New(16, ValueSort::List),
            ),
        ),
    ),
);

const INSERT_NEXT: Row<'static> = Is(
    14,
    TREE,
    &Exists(
        17,
        STR,
        &Exists(
            18,
            LIST,
            &Node(
                New(17, ValueSort::Str),
                Third,
                &True,
                New(18, ValueSort::List),
            ),
        ),
    ),
);

const INSERT_THERE: Row<'static> = Exists(
    8,
    CONTEXT,
    &Exists(
        9,
        STR,
        &Exists(
            10,
            FOREST,
            &Exists(
                11,
                FOREST,
                &Exists(
                    12,
                    LIST,
                    &Exists(
                        13,
                        TREE,
                        &Exists(
                            14,
                            TREE,
                            &And(
                                &And(&And(&INSERT_OUT, &INSERT_TREE), &INSERT_NEXT),
                                &Is(0, GROVE, &INSERT_AFTER),
                            ),
                        ),
                    ),
                ),
            ),
        ),
    ),
);

/// The row of what insertBefore says of it.
pub(crate) const INSERTED: Row<'static> = Or(&And(&Eq(Third, NullNode), &APPENDED), &INSERT_THERE);
