// Whether a proof ends in its procedure's own triple.
ghost use Rattle.std.specs.Prelude.{◌≡◌, ◌↔◌, IfOk, IsTrue, map};
ghost use Rattle.model_commands.specs.Theories.{own_triple, nameless_judgement, nameless_procedure};
ghost use Rattle.model_formulas.specs.Nameless.{nameless};
ghost use Rattle.model_files.specs.Sizes.{JudgementIsSmall, ProcedureIsSmall};
ghost use Rattle.rule_table.specs.Accepted.{EndsWell};
ghost use Rattle.formula_syntax.specs.Formulas.{formula_of};
ghost use Rattle.theory_syntax.specs.Judgements.{judgement_of, triple_of};
ghost use Rattle.theory_syntax.specs.Theories.{procedure_of};

use dom_terms::{OutOfMemory, same_data_sort};
use formula_syntax::same_formula;
use std::alloc::Global;
use theory_syntax::{Judgement, Procedure, Triple, same_command};

// Whether the formulas of the triple are the procedure's requires and ensures.
fn has_own_formulas(
    alloc: Global,
    procedure: &Procedure,
    triple: &Triple,
) -> Result<bool, OutOfMemory>
    requires procedure { ProcedureIsSmall (procedure_of procedure.now) }
    requires triple { JudgementIsSmall (triple_of triple.now) }
    ensures { IfOk result (λ b. IsTrue b
        ↔ ((nameless (formula_of triple.now.pre) ≡ nameless (formula_of procedure.now.pre))
        × (nameless (formula_of triple.now.post) ≡ nameless (formula_of procedure.now.post)))) }
{
    if same_formula(alloc, &triple.pre, &procedure.pre)? {
        let same = same_formula(alloc, &triple.post, &procedure.post)?;
        Ok(same)
    } else {
        Ok(false)
    }
}

// Whether the judgement is the procedure's own triple.
fn is_own_triple(
    alloc: Global,
    procedure: &Procedure,
    judgement: &Judgement,
) -> Result<bool, OutOfMemory>
    requires procedure { ProcedureIsSmall (procedure_of procedure.now) }
    requires judgement { JudgementIsSmall (judgement_of judgement.now) }
    ensures { IfOk result (λ b. IsTrue b ↔ (nameless_judgement (judgement_of judgement.now)
        ≡ own_triple (nameless_procedure (procedure_of procedure.now)))) }
{
    match judgement {
        Judgement::Entails(_) => Ok(false),
        Judgement::Triple(triple) => {
            if same_command(&triple.command, &procedure.body)
                && same_data_sort(triple.sort, procedure.sort)
            {
                has_own_formulas(alloc, procedure, triple)
            } else {
                Ok(false)
            }
        }
    }
}

/// Whether the proof of the procedure ends in the procedure's own triple.
pub fn ends_well(alloc: Global, procedure: &Procedure) -> Result<bool, OutOfMemory>
    requires { ProcedureIsSmall (procedure_of procedure.now) }
    ensures { IfOk result
        (λ b. IsTrue b ↔ EndsWell (nameless_procedure (procedure_of procedure.now))) }
{
    match procedure.proof.as_slice() {
        [.., last] => is_own_triple(alloc, procedure, &last.judgement),
        [] => Ok(false),
    }
}
