//! What one walk over a row of a rule learns of its letters, over the numbers of a table of
//! formulas. Promises that each walk is the walk of the definitions. No memory is taken.
//! Stands on the rows of patterns, on the table and on variables by number.
#![tactic(auto)]

mod below;
mod flat;
mod formulas;
mod known;
mod letters;
mod settling;
mod sorts;
mod steps;
mod terms;
mod verdicts;

pub use below::walk_below;
pub use formulas::walk_formula;
pub use known::{Datas, Known, Places, Terms};
pub use settling::settle;
pub use sorts::{walk_data, walk_sort, walk_x_sort};
pub use steps::{Cited, Numbered, walk_conclusion, walk_judged, walk_premises};
pub use terms::{walk_term, walk_variable};
pub use verdicts::{Step, verdict_by};
