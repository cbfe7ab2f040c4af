// All procedures of a theory, one after another, and the theory that comes of them.
ghost use Rattle.std.specs.Prelude.{◌≡◌, ◌≤◌, None, map, IfErr, IfOk};
ghost use Rattle.model_files.specs.FileFaults.{IsWellFormedTheory};
ghost use Rattle.model_files.specs.FileLimits.{step_count};
ghost use Rattle.model_files.specs.Sizes.{TheoryIsSmall};
ghost use Rattle.model_filling.specs.Filled as filling;
ghost use Rattle.model_filling.specs.Filled.{IsFilled, WalkAll, all_filled};
ghost use Rattle.theory_syntax.specs.Judgements.{step_of};
ghost use Rattle.theory_syntax.specs.Theories.{procedure_of, theory_of};
ghost use Rattle.hoare_kernel.specs.Walks.{AreNumbered, EachSorted};
ghost use Rattle.theory_filler.specs.Answers.{WereAsked};
ghost use Rattle.theory_filler.specs.Faults.{PassesLimit, Refuses};
ghost use Rattle.theory_filler.specs.Walks.{with_procedures};

use crate::faults::FillFault;
use crate::fillers::Fillers;
use crate::walks::fill_proof;
use dom_terms::{Copied, OutOfMemory, copies, with};
use formula_table::Table;
use gap_filling::filled_limit;
use std::alloc::Global;
use theory_syntax::{Procedure, Procedures, Steps, Theory};

// The procedure with this proof in place of its own.
fn with_proof(alloc: Global, procedure: &Procedure, proof: Steps) -> Result<Procedure, OutOfMemory>
    ensures { IfOk result (λ new. procedure_of new
        ≡ filling.with_proof (procedure_of procedure.now) (map step_of proof)) }
{
    let variables = copies(alloc, &procedure.params, &procedure.results)?;
    let header = with(variables, copies(alloc, &procedure.pre, &procedure.post))?;
    let text = with(header, copies(alloc, &procedure.body, &procedure.name))?;
    let (((params, results), (pre, post)), (body, name)) = text;
    let sort = procedure.sort;
    Ok(Procedure {
        name,
        params,
        results,
        sort,
        pre,
        post,
        body,
        proof,
    })
}

// The procedures, each with its filled proof.
fn fill_procedures<F: Fillers>(
    alloc: Global,
    theory: &Theory,
    fillers: &mut F,
) -> Result<Procedures, FillFault>
    requires small { TheoryIsSmall (theory_of theory.now) }
    requires numbered { AreNumbered theory.now.procedures }
    requires sorted { EachSorted theory.now.procedures }
    requires few { step_count (theory_of theory.now).procedures ≤ 65535 }
    ensures walked { IfOk result (λ filled. WalkAll (theory_of theory.now) 1
        (theory_of theory.now).procedures (F.voices fillers.old)
        (all_filled (map procedure_of filled) (F.voices fillers.new))) }
    ensures asked { WereAsked (F.voices fillers.old) (F.voices fillers.new) }
    ensures refused { IfErr result (Refuses (theory_of theory.now) (F.voices fillers.old)) }
{
    let mut table = Table::new(alloc);
    let mut filled = Procedures::new(alloc);
    let procedures = theory.procedures.as_slice();
    let mut number = 0;
    for procedure in procedures {
        number += 1;
        let proof = fill_proof(alloc, &mut table, theory, number, fillers, procedure)?;
        filled.push(with_proof(alloc, procedure, proof)?)?;
    }
    Ok(filled)
}

// The theory with these procedures in place of its own.
fn replaced(alloc: Global, theory: &Theory, procedures: Procedures) -> Result<Theory, OutOfMemory>
    ensures { IfOk result (λ new. theory_of new
        ≡ with_procedures (theory_of theory.now) (map procedure_of procedures)) }
{
    let logic = theory.logic.copy(alloc)?;
    let version = theory.version;
    Ok(Theory {
        version,
        logic,
        procedures,
    })
}

// The theory with these procedures in place of its own, if it passes no limit.
fn finished(alloc: Global, theory: &Theory, procedures: Procedures) -> Result<Theory, FillFault>
    ensures filled { IfOk result (λ new. theory_of new
        ≡ with_procedures (theory_of theory.now) (map procedure_of procedures)) }
    ensures within { IfOk result (λ new. filling.filled_limit (theory_of new) ≡ None) }
    ensures refused { IfErr result
        (PassesLimit (with_procedures (theory_of theory.now) (map procedure_of procedures))) }
{
    let new = replaced(alloc, theory, procedures)?;
    match filled_limit(alloc, &new)? {
        None => Ok(new),
        Some(kind) => Err(FillFault::Limit(kind)),
    }
}

/// The filled theory: the same, with the filled proof of each procedure in place of its own. The
/// first place that fails comes exactly where there is one: Fails and Gap with the procedure and
/// the step as they are counted in the theory handed in, NoProof with the procedure whose filled
/// proof doesn't end in its own triple. Limit comes exactly where no place fails and the filled
/// theory passes that limit, of its steps or else of the bytes of its text. OutOfMemory comes only
/// where memory is refused. Whatever comes, each filler was asked some times or not at all.
pub fn fill<F: Fillers>(
    alloc: Global,
    theory: &Theory,
    fillers: &mut F,
) -> Result<Theory, FillFault>
    requires small { TheoryIsSmall (theory_of theory.now) }
    requires formed { IsWellFormedTheory (theory_of theory.now) }
    requires few { step_count (theory_of theory.now).procedures ≤ 65535 }
    ensures filled { IfOk result (λ t. IsFilled (theory_of theory.now) (F.voices fillers.old)
        (theory_of t)) }
    ensures turns { IfOk result (λ t. WalkAll (theory_of theory.now) 1
        (theory_of theory.now).procedures (F.voices fillers.old)
        (all_filled (theory_of t).procedures (F.voices fillers.new))) }
    ensures within { IfOk result (λ t. filling.filled_limit (theory_of t) ≡ None) }
    ensures asked { WereAsked (F.voices fillers.old) (F.voices fillers.new) }
    ensures refused { IfErr result (Refuses (theory_of theory.now) (F.voices fillers.old)) }
{
    let procedures = fill_procedures(alloc, theory, fillers)?;
    finished(alloc, theory, procedures)
}
