//! Texts, values, terms and conditions as the program holds them, and the lists of each.
//! Promises that each type is seen as the plain data of the definitions, that a list or a text is
//! unchanged where memory is refused, and that a copy has the same view.
//! Stands on the definitions of shapes, formulas and programs.
#![tactic(auto)]

mod both;
mod conditions;
mod copied;
mod evaluation;
mod few;
pub mod limits;
mod list;
mod made;
mod memory;
mod same;
mod short;
mod sorts;
mod store;
mod term_sorts;
mod terms;
mod text;
mod truth;
mod values;
mod verdicts;

pub use both::{copies, with};
pub use conditions::Cond;
pub use copied::Copied;
pub use evaluation::{default_of, eval, value_or_default};
pub use few::Few;
pub use limits::LimitKind;
pub use list::List;
pub use made::MadeOf;
pub use memory::OutOfMemory;
pub use same::{
    same_bytes, same_data_sort, same_logic_var, same_prog_var, same_sort, same_text, same_value,
    same_value_sort,
};
pub use sorts::{DataSort, Sort, ValueSort};
pub use store::Store;
pub use term_sorts::{both_have, evaluates, has_sort};
pub use terms::{LogicVar, ProgVar, Term};
pub use text::Text;
pub use truth::holds;
pub use values::Value;
pub use verdicts::{EvalFault, SideName, Verdict};

/// A list of terms: one or two lie in the value itself.
pub type Terms = Few<Term, 2>;

/// A list of program variables.
pub type Vars = List<ProgVar>;

/// A list of logic variables.
pub type LogicVars = List<LogicVar>;

/// A list of values.
pub type Values = List<Value>;

/// A list of numbers: up to four lie in the value itself.
pub type Numbers = Few<u32, 4>;

/// A list of texts.
pub type Texts = List<Text>;
