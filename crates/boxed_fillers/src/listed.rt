// The fillers of a list, as they are asked while a theory is filled.
ghost use Rattle.boxed_fillers.specs.Voices.{voices_of};

use crate::asking::ask_each;
use dom_terms::OutOfMemory;
use formula_table::Table;
use std::alloc::Global;
use step_filler::Filler;
use theory_filler::Fillers;
use theory_syntax::{Judgement, Steps, Theory};

/// The fillers of a list, taken out of it while they are asked.
#[derive(Drop)]
pub(crate) struct Listed<F: Filler> {
    /// The fillers, in their order.
    pub(crate) fillers: Vec<F>,
}

impl<F: Filler> Fillers for Listed<F> {
    ghost voices = { λ listed. voices_of F.turn F.offers listed.fillers.items };

    fn ask(
        &mut self,
        alloc: Global,
        table: &mut Table,
        theory: &Theory,
        procedure: u32,
        proof: &mut Steps,
        judgement: &Judgement,
    ) -> Result<bool, OutOfMemory> {
        let fillers = &mut self.fillers;
        ask_each(alloc, table, theory, procedure, proof, judgement, fillers)
    }
}
