// The checks of a theory and of a step.
ghost use Rattle.std.specs.Prelude.{◌≡◌, ◌+◌, ◌-◌, ◌<◌, ◌≤◌, [], ◌∷◌, List, length, map, not};
ghost use Rattle.std.specs.Prelude.{Some, bytes_eq, slice_get, true};
ghost use Rattle.std.specs.Bool.{OnTrue};
ghost use Rattle.std.specs.List.{list_all, list_any};
ghost use Rattle.model_formulas.specs.Formulas.{Named};
ghost use Rattle.model_commands.specs.Theories.{ProcedureOf};
ghost use Rattle.model_files.specs.FileFaults as model;
ghost use Rattle.theory_syntax.specs.Judgements.{judgement_of, step_of};
ghost use Rattle.theory_syntax.specs.Theories.{procedure_of, theory_of};
ghost use Rattle.dom_syntax.specs.Faults.{Reports, step_fault, kind_of};
ghost use Rattle.dom_syntax.specs.Scopes.{HasNames, IsScope, names_in, procedure_in, theory_in};
ghost use Rattle.dom_syntax.specs.ScopeTests.{HeadSettled, StepSettled};
ghost use Rattle.dom_syntax.specs.Judged.{HeadJudged, ProcedureJudged};
ghost use Rattle.dom_syntax.specs.Judged.{StepJudged, StepsJudged, TheoryJudged};
ghost use Rattle.dom_syntax.specs.Places.{places_of};
ghost use Rattle.declared_sorts.specs.Settled.{procedure_settled, step_settled, theory_settled};
ghost use Rattle.model_files.specs.Sizes.{StepsAreSmall, IsSmall, JudgementIsSmall};
ghost use Rattle.model_files.specs.Sizes.{ProcedureIsSmall, TheoryIsSmall};
ghost use Rattle.std.specs.Option.{option_map};
ghost use Rattle.dom_syntax.specs.declared.programs.ProgramFault.TheVariants as f;

use crate::contents::Contents;
use crate::kinds::FileKind;
use crate::places::{Declarations, Header, ProofStep, first_kind, sure_of};
use crate::scopes::{Names, Scope};
use crate::tables::Table;
use dom_terms::OutOfMemory;
use std::alloc::Global;
use theory_syntax::{Procedure, Step, Theory};

/// Why a theory or a step is refused.
#[derive(Clone, Copy, Debug, PartialEq, Eq)]
pub enum ProgramFault {
    /// It isn't well formed. The procedure is counted from 1, and so is the step; step 0 is the
    /// header with the body, and procedure 0 with step 0 the version with the logic declarations.
    BadProgram {
        procedure: u32,
        step: u32,
        kind: FileKind,
    },
    /// Memory was refused.
    OutOfMemory,
}

impl From<OutOfMemory> for ProgramFault {
    ghost from_gives = { λ _ fault. fault ≡ f.OutOfMemory };

    fn from(_refused: OutOfMemory) -> ProgramFault {
        ProgramFault::OutOfMemory
    }
}

/// What is known of a theory before it is checked. Where a field is false, nothing is known.
#[derive(Clone, Copy)]
pub struct Told {
    /// Each of its variables is declared, first with the sort that it has.
    pub are_settled: bool,
    /// The formulas of each header and of each step may be judged at their sorts.
    pub are_judged: bool,
}

// Nothing is known of the theory.
const NOTHING: Told = Told {
    are_settled: false,
    are_judged: false,
};

// What the kind of fault at a step of a procedure says, if there is one.
fn verdict(procedure: u32, step: u32, kind: Option<FileKind>) -> Result<(), ProgramFault>
    ensures { Reports result (step_fault procedure step (option_map kind_of kind)) }
{
    match kind {
        Some(kind) => Err(ProgramFault::BadProgram {
            procedure,
            step,
            kind,
        }),
        None => Ok(()),
    }
}

// Whether the step is well formed at this place of the proof. Where it is told that its variables
// are settled, which is declared, first with their sorts, none is asked for that; and where it is
// told that the formulas of its judgement may be judged at its sort, they aren't walked for that.
fn check_step_at(
    alloc: Global,
    scope: &Scope,
    procedure: u32,
    place: u32,
    step: &Step,
    told: Told,
) -> Result<(), ProgramFault>
    requires scope { IsScope scope.now }
    requires small { JudgementIsSmall (judgement_of step.now.judgement) }
    requires settled { StepSettled told.are_settled scope.now (step_of step.now) }
    requires judged { StepJudged told.are_judged (step_of step.now) }
    ensures { Reports result (step_fault procedure place
        (model.step_kind (theory_in scope.now.names.now) (procedure_in scope.now) place
        (step_of step.now))) }
{
    let sure = sure_of(alloc, scope, &Contents::of_step(step), told.are_settled)?;
    let at = ProofStep {
        alloc,
        scope,
        place,
        sure,
        is_judged: told.are_judged,
    };
    verdict(procedure, place, first_kind(&at, step)?)
}

// Whether each step of the procedure's proof is well formed. What is known of them may be told.
fn check_steps(alloc: Global, scope: &Scope, procedure: u32, told: Told) -> Result<(), ProgramFault>
    requires scope { IsScope scope.now }
    requires small { StepsAreSmall (procedure_in scope.now).proof }
    requires few { length (procedure_in scope.now).proof < 4294967295 }
    requires settled { OnTrue told.are_settled (list_all (step_settled (names_in scope.now))
        (procedure_in scope.now).proof ≡ true) }
    requires judged { StepsJudged told.are_judged (procedure_in scope.now) }
    ensures { Reports result (model.first_fault_at
        (model.steps_from (theory_in scope.now.names.now) procedure (procedure_in scope.now) 1
        (procedure_in scope.now).proof)) }
{
    let mut place = 0;
    for step in scope.procedure.proof.as_slice() {
        place += 1;
        check_step_at(alloc, scope, procedure, place, step, told)?;
    }
    Ok(())
}

// Whether the header of the procedure, whose name is new or not, is well formed. What is known of
// it may be told.
fn check_header(
    alloc: Global,
    scope: &Scope,
    procedure: u32,
    is_new: bool,
    told: Told,
) -> Result<(), ProgramFault>
    requires scope { IsScope scope.now }
    requires pre { IsSmall (procedure_in scope.now).pre }
    requires post { IsSmall (procedure_in scope.now).post }
    requires settled { HeadSettled told.are_settled scope.now }
    requires judged { HeadJudged told.are_judged (procedure_in scope.now) }
    ensures { (earlier : List (ProcedureOf Named))
        → not (list_any (λ g. bytes_eq (procedure_in scope.now).name g.name) earlier) ≡ is_new
        → Reports result (step_fault procedure 0
        (model.head_kind (theory_in scope.now.names.now) earlier (procedure_in scope.now))) }
{
    let sure = sure_of(
        alloc,
        scope,
        &Contents::of_head(scope.procedure),
        told.are_settled,
    )?;
    let head = Header {
        alloc,
        is_new,
        sure,
        is_judged: told.are_judged,
    };
    verdict(procedure, 0, first_kind(&head, scope)?)
}

// Whether the procedure of the scope, whose name is new or not, and the steps of its proof are well
// formed. What is known of them may be told.
fn check_scope(
    alloc: Global,
    scope: &Scope,
    number: u32,
    is_new: bool,
    told: Told,
) -> Result<(), ProgramFault>
    requires scope { IsScope scope.now }
    requires small { ProcedureIsSmall (procedure_in scope.now) }
    requires few { length (procedure_in scope.now).proof < 4294967295 }
    requires settled { OnTrue told.are_settled (procedure_settled
        (theory_in scope.now.names.now).logic (procedure_in scope.now) ≡ true) }
    requires judged { ProcedureJudged told.are_judged (procedure_in scope.now) }
    ensures { (earlier : List (ProcedureOf Named))
        → not (list_any (λ g. bytes_eq (procedure_in scope.now).name g.name) earlier) ≡ is_new
        → Reports result (model.first_fault_at (places_of (theory_in scope.now.names.now) earlier
        number (procedure_in scope.now))) }
{
    check_header(alloc, scope, number, is_new, told)?;
    check_steps(alloc, scope, number, told)
}

// The same of a procedure of the names.
fn check_procedure(
    alloc: Global,
    names: &Names,
    procedure: &Procedure,
    number: u32,
    is_new: bool,
    told: Told,
) -> Result<(), ProgramFault>
    requires names { HasNames names.now }
    requires small { ProcedureIsSmall (procedure_of procedure.now) }
    requires few { length (procedure_of procedure.now).proof < 4294967295 }
    requires settled { OnTrue told.are_settled (procedure_settled (theory_in names.now).logic
        (procedure_of procedure.now) ≡ true) }
    requires judged { ProcedureJudged told.are_judged (procedure_of procedure.now) }
    ensures { (earlier : List (ProcedureOf Named))
        → not (list_any (λ g. bytes_eq (procedure_of procedure.now).name g.name) earlier) ≡ is_new
        → Reports result (model.first_fault_at (places_of (theory_in names.now) earlier number
        (procedure_of procedure.now))) }
{
    let scope = Scope::new(alloc, names, procedure)?;
    let checked = check_scope(alloc, &scope, number, is_new, told);
    drop(scope);
    checked
}

// Whether the procedures of the theory are well formed. What is known of them may be told.
fn check_procedures(alloc: Global, names: &Names, told: Told) -> Result<(), ProgramFault>
    requires names { HasNames names.now }
    requires small { TheoryIsSmall (theory_in names.now) }
    requires settled { OnTrue told.are_settled (theory_settled (theory_in names.now) ≡ true) }
    requires judged { TheoryJudged told.are_judged (theory_in names.now) }
    ensures { Reports result (model.first_fault_at
        (model.procedures_from (theory_in names.now) [] 1 (theory_in names.now).procedures)) }
{
    let mut earlier: Table<()> = Table::new(alloc);
    let mut number = 0;
    for procedure in names.theory.procedures.as_slice() {
        number += 1;
        let is_new = earlier.get(procedure.name.as_str()).is_none();
        check_procedure(alloc, names, procedure, number, is_new, told)?;
        earlier.declare(procedure.name.as_str(), ())?;
    }
    Ok(())
}

// Whether the version and the logic declarations are well formed.
fn check_declarations(names: &Names) -> Result<(), ProgramFault>
    requires { HasNames names.now }
    ensures { Reports result
        (step_fault 0 0 (model.first_kind (model.declarations (theory_in names.now)))) }
{
    verdict(0, 0, first_kind(&Declarations, names)?)
}

/// Whether the theory is well formed. The error is the first place at fault, in the order of the
/// file, with the first kind of which there is a fault there: BadProgram comes exactly there.
/// OutOfMemory comes only where memory is refused.
pub fn check_program(alloc: Global, theory: &Theory) -> Result<(), ProgramFault>
    requires { TheoryIsSmall (theory_of theory.now) }
    ensures { Reports result (model.first_file_fault (theory_of theory.now)) }
{
    check_told_program(alloc, theory, NOTHING)
}

/// The same of a theory of which something may be known: what is known isn't asked of it again.
pub fn check_told_program(alloc: Global, theory: &Theory, told: Told) -> Result<(), ProgramFault>
    requires small { TheoryIsSmall (theory_of theory.now) }
    requires settled { OnTrue told.are_settled (theory_settled (theory_of theory.now) ≡ true) }
    requires judged { TheoryJudged told.are_judged (theory_of theory.now) }
    ensures { Reports result (model.first_file_fault (theory_of theory.now)) }
{
    let names = Names::new(alloc, theory)?;
    check_declarations(&names)?;
    check_procedures(alloc, &names, told)
}

// Whether the step is well formed at this place of the proof of the procedure, the one with this
// number.
fn check_step_in(
    alloc: Global,
    names: &Names,
    own: &Procedure,
    number: u32,
    place: u32,
    step: &Step,
) -> Result<(), ProgramFault>
    requires names { HasNames names.now }
    requires small { JudgementIsSmall (judgement_of step.now.judgement) }
    ensures { Reports result (step_fault number place
        (model.step_kind (theory_in names.now) (procedure_of own.now) place
        (step_of step.now))) }
{
    let scope = Scope::new(alloc, names, own)?;
    let checked = check_step_at(alloc, &scope, number, place, step, NOTHING);
    drop(scope);
    checked
}

/// Whether the step is well formed at this place, counted from 1, of the proof of the procedure,
/// counted from 1. BadProgram comes exactly where it isn't, with the first kind of which there is a
/// fault and with the numbers that are handed in. The theory need not be well formed, and its
/// proofs play no part. OutOfMemory comes only where memory is refused.
pub fn check_one(
    alloc: Global,
    theory: &Theory,
    procedure: u32,
    place: u32,
    step: &Step,
) -> Result<(), ProgramFault>
    requires first { 1 ≤ procedure }
    requires last { procedure ≤ length theory.now.procedures }
    requires place { 1 ≤ place }
    requires small { JudgementIsSmall (judgement_of step.now.judgement) }
    ensures { (f : ProcedureOf Named)
        → slice_get (theory_of theory.now).procedures (procedure - 1) ≡ Some f
        → Reports result (step_fault procedure place
        (model.step_kind (theory_of theory.now) f place (step_of step.now))) }
{
    let names = Names::new(alloc, theory)?;
    let own = &theory.procedures.as_slice()[procedure as usize - 1];
    check_step_in(alloc, &names, own, procedure, place, step)
}
