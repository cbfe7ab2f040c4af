// Forests let go without recursion.
ghost use Rattle.std.specs.Prelude.{◌≡◌, ◌≢◌, [], ◌+◌, ◌*◌, ◌<◌, MatchOption};
ghost use Rattle.model_groves.specs.Sizes.{size};
ghost use Rattle.grove_data.specs.Trees.{forest_of};
ghost use Rattle.grove_data.specs.LettingGo.{waiting};

use crate::trees::Forest;
use dom_terms::List;
use std::alloc::Global;
use std::mem::replace;

/// Lets a forest go with no recursion and no memory, for whoever has one that may be deep, as the
/// grove of a heap: a plain drop takes stack for each tree below another.
pub fn let_go(alloc: Global, forest: Forest) {
    let mut row = forest;
    // the row round this one; its last tree, whose children these were, keeps the row round that in
    // their place
    let mut outer = List::new(alloc);
    loop {
        if row.is_empty() {
            match last_kids(&mut outer) {
                Some(outside) => {
                    row = outer;
                    outer = outside;
                }
                None => return,
            }
        } else {
            let kids = exchanged(&mut row, outer);
            outer = row;
            row = kids;
        }
    }
}

// puts other trees in the place of the children of the last tree, and gives those
fn exchanged(row: &mut Forest, others: Forest) -> Forest
    requires { row.old ≢ [] }
    ensures { 2 * size (forest_of result) + waiting (forest_of row.new)
        < 2 * size (forest_of row.old) + waiting (forest_of others) }
{
    match row.last_mut() {
        Some(last) => replace(&mut last.kids, others),
        None => unreachable!(),
    }
}

// takes the last tree away, and gives its children
fn last_kids(outer: &mut Forest) -> Option<Forest>
    ensures { MatchOption result (outer.old ≡ []) (λ outside.
        2 * size (forest_of outer.new) + waiting (forest_of outside)
        < waiting (forest_of outer.old)) }
{
    let last = outer.pop()?;
    Some(last.kids)
}
