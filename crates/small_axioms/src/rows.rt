// The lines of the axioms, as constants.
ghost use Rattle.rule_table.specs.Axioms.{axioms};
ghost use Rattle.rule_table.specs.Verdicts.{readings_in};
ghost use Rattle.small_axioms.specs.Lines.{AllTied};
ghost use Rattle.small_axioms.specs.Patterns.{patterns_in};

use crate::notation::{
    ANY, CHILD, CHILD_TREE, COUNTED_NODE, COUNTED_PARENT, E, F, FOREST, G, GROVE, I, J, K, L, NODE,
    PARENT, Q, S, T, TREE, V, WITH_BOTH, WITH_LAST, WITH_NEXT, WITHOUT_CHILD, X,
};
use row_patterns::Pattern::{And, App, EmptyForest, EmptyGrove, Eq, HoleAdj, Le, Or, Plus, Root};
use row_patterns::{DataPattern, Pattern, TermPattern};

/// A kind of commands of the document.
#[derive(Clone, Copy)]
pub(crate) enum Kind {
    /// `x := createNode(E)`
    Create,
    /// `x := nodeName(E)`
    Name,
    /// `x := childNodes(E)`
    Children,
    /// `x := parentNode(E)`
    Parent,
    /// `x := item(E, F)`
    Item,
    /// `appendChild(E, F)`
    Append,
    /// `removeChild(E, F)`
    Remove,
    /// `insertBefore(E, F, G)`
    InsertBefore,
}

/// A line of an axiom: a command, and the formulas before and after it at the sort. The formula
/// after `createNode` has a binder, so its pattern is a letter, and `is_new_root` reads it.
#[derive(Clone, Copy)]
pub(crate) struct AxiomRow<'a> {
    /// The command.
    pub kind: Kind,
    /// The formula before it.
    pub pre: Pattern<'a>,
    /// The formula after it.
    pub post: Pattern<'a>,
    /// The sort.
    pub sort: DataPattern,
}

/// The lines of an axiom, one for each of its readings.
pub(crate) type Rows = &'static [AxiomRow<'static>];

// `axiom!(Kind, {P} {Q}; sort)`: a line
macro_rules! axiom {
    ($kind:ident, {$pre:expr} {$post:expr}; $sort:expr) => {
        AxiomRow { kind: Kind::$kind, pre: $pre, post: $post, sort: $sort }
    };
}

const NAME: Rows = &[axiom!(Name, {And(&NODE, &Eq(E, I))} {And(&NODE, &Eq(X, S))}; TREE)];

const CHILDREN: Rows = &[axiom!(Children, {And(&NODE, &Eq(E, I))} {And(&NODE, &Eq(X, L))}; TREE)];

const ITEM: Rows = &[axiom!(
    Item,
    {And(&And(&COUNTED_PARENT, &Eq(E, L)), &Eq(F, G))} {And(&COUNTED_PARENT, &Eq(X, J))};
    TREE
)];

// `(F <= -1 or G <= F)`
const OUTSIDE: Pattern<'static> = Or(&Le(F, TermPattern::Int(-1)), &Le(G, F));

const ITEM_NONE: Rows = &[axiom!(
    Item,
    {And(&And(&COUNTED_NODE, &Eq(E, L)), &OUTSIDE)}
    {And(&COUNTED_NODE, &Eq(X, TermPattern::NullNode))};
    TREE
)];

const PARENT_OF: Rows = &[
    axiom!(Parent, {And(&PARENT, &Eq(E, J))} {And(&PARENT, &Eq(X, I))}; TREE),
];

const PARENT_NONE: Rows = &[axiom!(
    Parent,
    {And(&Root(&NODE), &Eq(E, I))} {And(&Root(&NODE), &Eq(X, TermPattern::NullNode))};
    GROVE
)];

const CREATE: Rows = &[axiom!(Create, {And(&EmptyGrove, &Eq(E, T))} {Q}; GROVE)];

// `before_move!(h, 0h, N, U)`: `((((0h -o (K @t N)) @h U) and E = I) and F = J)`
macro_rules! before_move {
    ($hole:expr, $empty:expr, $taker:expr, $mover:expr) => {
        And(
            &And(&App($hole, &HoleAdj(&$empty, &App(TREE, &K, &$taker)), &$mover), &Eq(E, I)),
            &Eq(F, J),
        )
    };
}

// the child stands in a forest, as one of its trees; or in a grove, as one of its roots
const FROM_FOREST: Pattern<'static> = before_move!(FOREST, EmptyForest, NODE, CHILD_TREE);

const FROM_GROVE: Pattern<'static> = before_move!(GROVE, EmptyGrove, NODE, Root(&CHILD));

const MOVED_LAST: Pattern<'static> = App(TREE, &K, &WITH_LAST);

const APPEND: Rows = &[
    axiom!(Append, {FROM_FOREST} {MOVED_LAST}; ANY),
    axiom!(Append, {FROM_GROVE} {MOVED_LAST}; GROVE),
];

const REMOVE: Rows = &[axiom!(
    Remove,
    {And(&And(&App(TREE, &K, &PARENT), &Eq(E, I)), &Eq(F, J))}
    {Plus(&App(TREE, &K, &WITHOUT_CHILD), &Root(&CHILD))};
    GROVE
)];

const TO_NEXT: Pattern<'static> = before_move!(FOREST, EmptyForest, WITH_NEXT, CHILD_TREE);

const ROOT_TO_NEXT: Pattern<'static> = before_move!(GROVE, EmptyGrove, WITH_NEXT, Root(&CHILD));

const INSERTED: Pattern<'static> = App(TREE, &K, &WITH_BOTH);

const INSERT_BEFORE: Rows = &[
    axiom!(InsertBefore, {And(&TO_NEXT, &Eq(G, V))} {INSERTED}; ANY),
    axiom!(InsertBefore, {And(&ROOT_TO_NEXT, &Eq(G, V))} {INSERTED}; GROVE),
];

// `G = null`
const AT_END: Pattern<'static> = Eq(G, TermPattern::NullNode);

const INSERT_LAST: Rows = &[
    axiom!(InsertBefore, {And(&FROM_FOREST, &AT_END)} {MOVED_LAST}; ANY),
    axiom!(InsertBefore, {And(&FROM_GROVE, &AT_END)} {MOVED_LAST}; GROVE),
];

/// The lines of the axiom of that name; a name of no axiom has none.
pub(crate) fn rows_named(name: &str) -> Rows
    ensures { AllTied (readings_in axioms name.now) (patterns_in result.now) }
{
    match name {
        "name" => NAME,
        "children" => CHILDREN,
        "item" => ITEM,
        "item_none" => ITEM_NONE,
        "parent" => PARENT_OF,
        "parent_none" => PARENT_NONE,
        "create" => CREATE,
        "append" => APPEND,
        "remove" => REMOVE,
        "insert_before" => INSERT_BEFORE,
        "insert_last" => INSERT_LAST,
        _ => &[],
    }
}
