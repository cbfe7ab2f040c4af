//! Fillers, and the assistants: what each offers for a gap.
//! Promises that an assistant gives steps exactly where the judgement is obvious in its kind, and
//! which. Stands on the steps of the program.
#![tactic(auto)]

mod conj;
mod drafts;
mod fillers;
mod form_laws;
mod forms;
mod laws;
mod layers;
mod pens;
mod root_sides;
mod roots;
mod same_forms;
mod sides;
mod spot;
mod tidy;
mod turns;
mod weights;

pub use conj::Conj;
pub use fillers::Filler;
pub use form_laws::what_is_obvious_by_form_is_offered;
pub use laws::{what_has_the_sizes_is_whole, what_is_obvious_by_conjuncts_is_offered};
pub use spot::{Spot, what_is_obvious_by_filling_is_offered};
pub use tidy::Tidy;
