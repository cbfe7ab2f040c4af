//! The table of rules that a proof may cite, instances of rules, the verdict on a step, accepted
//! theories and the first bad place, with no Rust data. Promises that the table has the names of
//! the language, and that a step has one verdict and a theory one first bad place. Stands on
//! model_files.
#![tactic(auto)]

ghost use Rattle.std.specs.Prelude.{◌≡◌, ◌⊎◌, ◌++◌, ℕ, List, map};
ghost use Rattle.model_shapes.specs.Values.{Name};
ghost use Rattle.model_terms.specs.Terms.{Term};
ghost use Rattle.model_files.specs.RuleNames.{entailment_rule_names, triple_rule_names};
ghost use Rattle.model_commands.specs.Theories.{Judgement, by_rule, Step, Procedure, Procedures, Theory, procedures_of};
ghost use Rattle.rule_table.specs.Entries.{Entry};
ghost use Rattle.rule_table.specs.Table.{table};
ghost use Rattle.rule_table.specs.Verdicts.{Written, Verdict, IsVerdict, readings_in};
ghost use Rattle.rule_table.specs.Accepted.{VerdictBy, EndsWell, IsAccepted, BadPlace, IsFirstBad};

/// The table has the names of the language, in their order.
pub fn the_table_has_the_names()
    ensures { (procedures : Procedures) → map (λ entry. entry.name) (table procedures)
        ≡ entailment_rule_names ++ triple_rule_names }
{}

/// A step has at most one verdict.
pub fn a_step_has_one_verdict()
    ensures { (procedures : Procedures) (name : Name) (written : Written) (v w : Verdict)
        → IsVerdict (readings_in (table procedures) name) written v
        → IsVerdict (readings_in (table procedures) name) written w → v ≡ w }
{}

/// An accepted theory has no bad place, and no theory has two that are the first. Where there is a
/// verdict on each step, and a decision on each end, a theory is accepted or has a first bad place.
pub fn a_theory_is_accepted_or_has_a_bad_place()
    ensures none { (theory : Theory) (bad : BadPlace) → IsAccepted theory → IsFirstBad theory bad
        → ⊥ }
    ensures one { (theory : Theory) (bad other : BadPlace) → IsFirstBad theory bad
        → IsFirstBad theory other → bad ≡ other }
    ensures first { (theory : Theory)
        → ((name : Name) (citations : List ℕ) (arguments : List Term) (earlier : List Step)
        (j : Judgement) → (v : Verdict)
        × VerdictBy (procedures_of theory) (by_rule name citations arguments) earlier j v)
        → ((f : Procedure) → Dec (EndsWell f))
        → IsAccepted theory ⊎ ((bad : BadPlace) × IsFirstBad theory bad) }
{}
