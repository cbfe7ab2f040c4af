// The walk through a proof, step by step to its end.
ghost use Rattle.std.specs.Prelude.{◌≡◌, ◌≤◌, ◌↔◌, ◌-◌, List, [], length, map, slice_get, Some};
ghost use Rattle.std.specs.Prelude.{IfErr, IfOk, IsTrue};
ghost use Rattle.model_commands.specs.Theories as model;
ghost use Rattle.model_commands.specs.Theories.{nameless_judgement};
ghost use Rattle.model_files.specs.Sizes.{ProcedureIsSmall, StepsAreSmall, TheoryIsSmall};
ghost use Rattle.rule_table.specs.Accepted.{last_judgement};
ghost use Rattle.model_filling.specs.Walk.{Walk, proof_filled};
ghost use Rattle.theory_syntax.specs.Judgements.{judgement_of, step_of};
ghost use Rattle.theory_syntax.specs.Theories.{procedure_of, theory_of};
ghost use Rattle.cited_steps.specs.Earlier.{AreCitable, steps_in};
ghost use Rattle.hoare_kernel.specs.Walks.{AllSorted, ProofIsNumbered};
ghost use Rattle.theory_filler.specs.Answers.{OfProcedure, WereAsked};
ghost use Rattle.theory_filler.specs.Faults.{Told};
ghost use Rattle.theory_filler.specs.Walks.{WalkFails, WalkLeads};

use crate::faults::FillFault;
use crate::fillers::Fillers;
use crate::steps::{Walked, add_step};
use dom_terms::{Copied, List, OutOfMemory, copies, with};
use formula_table::Table;
use gap_filling::ends_in;
use std::alloc::Global;
use theory_syntax::{Judgement, Procedure, Step, Steps, Theory, Triple};

// What comes of the steps of a proof, before its end.
fn walk<F: Fillers>(
    alloc: Global,
    table: &mut Table,
    theory: &Theory,
    procedure: u32,
    fillers: &mut F,
    written: &[Step],
) -> Result<Walked, FillFault>
    requires theory { TheoryIsSmall (theory_of theory.now) }
    requires first { 1 ≤ procedure }
    requires last { procedure ≤ length theory.now.procedures }
    requires citable { AreCitable written.now }
    requires few { length written.now ≤ 65535 }
    requires sorted { AllSorted written.now }
    ensures citable { IfOk result (λ walked. AreCitable walked.steps) }
    ensures leads { OfProcedure (theory_of theory.now) procedure (λ f. IfOk result
        (λ walked. WalkLeads (theory_of theory.now) f written.now (F.voices fillers.old) walked
        (F.voices fillers.new))) }
    ensures bad { OfProcedure (theory_of theory.now) procedure (λ f. IfErr result
        (Told (WalkFails (theory_of theory.now) f written.now (F.voices fillers.old)
        procedure))) }
    ensures asked { WereAsked (F.voices fillers.old) (F.voices fillers.new) }
{
    let mut walked = Walked {
        steps: Steps::new(alloc),
        gaps: List::new(alloc),
    };
    for step in written {
        add_step(alloc, table, theory, procedure, fillers, &mut walked, step)?;
    }
    Ok(walked)
}

// The procedure's own triple.
fn own_triple(alloc: Global, procedure: &Procedure) -> Result<Judgement, OutOfMemory>
    ensures { IfOk result
        (λ own. judgement_of own ≡ model.own_triple (procedure_of procedure.now)) }
{
    let formulas = copies(alloc, &procedure.pre, &procedure.post)?;
    let ((pre, post), command) = with(formulas, procedure.body.copy(alloc))?;
    let sort = procedure.sort;
    Ok(Judgement::Triple(Triple {
        pre,
        command,
        post,
        sort,
    }))
}

// Whether these steps end in the procedure's own triple.
fn ends_well(alloc: Global, procedure: &Procedure, proof: &[Step]) -> Result<bool, OutOfMemory>
    requires procedure { ProcedureIsSmall (procedure_of procedure.now) }
    requires proof { StepsAreSmall (map step_of proof.now) }
    ensures { IfOk result (λ ends. IsTrue ends ↔ (last_judgement (steps_in proof.now)
        ≡ Some (nameless_judgement (model.own_triple (procedure_of procedure.now))))) }
{
    let own = own_triple(alloc, procedure)?;
    ends_in(alloc, proof, &own)
}

/// The filled proof of the procedure, the one of the theory with this number, counted from 1. The
/// first place of the proof that fails comes exactly where there is one: Fails and Gap with the
/// step as it is numbered there, NoProof where the filled proof doesn't end in the procedure's own
/// triple. Limit never comes. OutOfMemory comes only where memory is refused.
pub fn fill_proof<F: Fillers>(
    alloc: Global,
    table: &mut Table,
    theory: &Theory,
    number: u32,
    fillers: &mut F,
    procedure: &Procedure,
) -> Result<Steps, FillFault>
    requires theory { TheoryIsSmall (theory_of theory.now) }
    requires first { 1 ≤ number }
    requires last { number ≤ length theory.now.procedures }
    requires own { slice_get (theory_of theory.now).procedures (number - 1)
        ≡ Some (procedure_of procedure.now) }
    requires small { ProcedureIsSmall (procedure_of procedure.now) }
    requires numbered { ProofIsNumbered procedure.now }
    requires few { length procedure.now.proof ≤ 65535 }
    requires sorted { AllSorted procedure.now.proof }
    ensures filled { IfOk result (λ proof. Walk (theory_of theory.now)
        (procedure_of procedure.now) [] [] 1 (map step_of procedure.now.proof)
        (F.voices fillers.old) (proof_filled (map step_of proof) (F.voices fillers.new))) }
    ensures bad { IfErr result (Told (WalkFails (theory_of theory.now)
        (procedure_of procedure.now) procedure.now.proof (F.voices fillers.old) number)) }
    ensures asked { WereAsked (F.voices fillers.old) (F.voices fillers.new) }
{
    let walked = walk(
        alloc,
        table,
        theory,
        number,
        fillers,
        procedure.proof.as_slice(),
    )?;
    if ends_well(alloc, procedure, walked.steps.as_slice())? {
        Ok(walked.steps)
    } else {
        Err(FillFault::NoProof { procedure: number })
    }
}
