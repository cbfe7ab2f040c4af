//! The definitions of what is at fault in a file, with no Rust data. Promises that well-formed
//! theories are those that the machine can run: its law is a function here, with an empty body.
//! Stands on model_commands.
#![tactic(auto)]

ghost use Rattle.std.specs.Prelude.{◌≡◌, ℕ, List, true, Some, None};
ghost use Rattle.model_shapes.specs.Sorts.{DataSort};
ghost use Rattle.model_formulas.specs.Formulas.{Named};
ghost use Rattle.model_commands.specs.Commands.{Command};
ghost use Rattle.model_commands.specs.Theories.{ProcedureOf, Procedure, StepOf, triple, Theory, procedures_of, procedure_named};
ghost use Rattle.model_files.specs.FileFaults.{IsWellFormedTheory, step_kind};
ghost use Rattle.model_commands.specs.Scopes.{IsScoped};
ghost use Rattle.model_commands.specs.SortTests.{BodiesSorted, is_sorted};

/// What runs and calls need of a theory, a well-formed one has: bodies and commands of steps with
/// parts of the right sorts and number, and procedures that keep to their scopes.
pub fn well_formed_theories_fit_the_machine()
    ensures bodies { (theory : Theory) → IsWellFormedTheory theory
        → BodiesSorted (procedures_of theory) }
    ensures scopes { (theory : Theory) → IsWellFormedTheory theory → (name : List ℕ)
        (f : Procedure) → procedure_named name (procedures_of theory) ≡ Some f → IsScoped f }
    ensures steps { (theory : Theory) (procedure : ProcedureOf Named) (place : ℕ)
        (step : StepOf Named) (pre : Named) (c : Command) (post : Named) (d : DataSort)
        → step_kind theory procedure place step ≡ None → step.judgement ≡ triple pre c post d
        → is_sorted (procedures_of theory) c ≡ true }
{}
