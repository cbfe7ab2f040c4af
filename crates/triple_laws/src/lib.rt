//! The rules for triples and the axioms of the commands, as laws with no Rust data. Promises that
//! each is sound, by the number of steps and in every context, and that in an accepted theory each
//! procedure meets its specification, recursion and all. Stands on entailment_laws and the machine.
#![tactic(auto)]

ghost use Rattle.std.specs.Prelude.{◌≡◌, ℕ, List, Some};
ghost use Rattle.model_shapes.specs.Values.{Name};
ghost use Rattle.model_commands.specs.Theories.{Judgement, Reason, Step, Theory, procedures_of};
ghost use Rattle.model_files.specs.FileFaults.{IsWellFormedTheory};
ghost use Rattle.model_machine.specs.LocalTriples.{MeetsItsSpecification};
ghost use Rattle.rule_table.specs.Accepted.{Each, InstanceBy, IsAccepted};
ghost use Rattle.rule_table.specs.Axioms.{axioms};
ghost use Rattle.rule_table.specs.Table.{triples};
ghost use Rattle.rule_table.specs.Verdicts.{Written, IsInstance, readings_in};
ghost use Rattle.entailment_laws.specs.Judgements.{Fitting, JudgementHolds, AllProved};
ghost use Rattle.triple_laws.specs.BySteps.{in_steps, locally, HoldBelow};
ghost use Rattle.triple_laws.specs.Steps.{HoldsBySteps};

/// Where the triple of each procedure holds for the runs of fewer than n steps, and the premises
/// for those of at most n, an instance of a rule or an axiom holds for the runs of at most n steps.
pub fn rules_are_sound()
    ensures { (theory : Theory) → IsWellFormedTheory theory → (n : ℕ)
        → HoldBelow (procedures_of theory) n → (name : Name) (written : Written)
        (premises : List Judgement) → Fitting (in_steps (procedures_of theory) n) written.conclusion
        → written.premises ≡ Some premises
        → AllProved (in_steps (procedures_of theory) n) premises
        → IsInstance (readings_in (triples (procedures_of theory)) name) written
        → JudgementHolds (in_steps (procedures_of theory) n) written.conclusion }
{}

/// The same of a step by any rule of the table, one of entailment or one for triples.
pub fn steps_are_sound()
    ensures { (theory : Theory) (earlier : List Step) (reason : Reason) (judgement : Judgement)
        → InstanceBy (procedures_of theory) reason earlier judgement
        → HoldsBySteps theory earlier reason judgement }
{}

/// An instance of an axiom holds in every context.
pub fn axioms_hold()
    ensures { (theory : Theory) → IsWellFormedTheory theory → (name : Name) (written : Written)
        → Fitting (locally (procedures_of theory)) written.conclusion
        → IsInstance (readings_in axioms name) written
        → JudgementHolds (locally (procedures_of theory)) written.conclusion }
{}

/// In an accepted theory each procedure meets its specification: it never faults and ends as its
/// ensures says, in every context and over every list of picks.
pub fn accepted_theories_hold()
    ensures { (theory : Theory) → IsWellFormedTheory theory → IsAccepted theory
        → Each (MeetsItsSpecification (procedures_of theory)) (procedures_of theory) }
{}
