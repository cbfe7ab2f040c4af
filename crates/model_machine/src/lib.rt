//! The definitions of the machine, its runs and outcomes, and of local triples, with no Rust data.
//! Promises that they say what is meant: their laws are functions here, each with an empty body.
//! Stands on model_commands and model_groves.
#![tactic(auto)]

ghost use Rattle.std.specs.Prelude.{◌≡◌, ℕ, List, [], ◌∷◌, map, true, Some, None, Contains};
ghost use Rattle.model_shapes.specs.Sorts.{DataSort, grove, shape, context};
ghost use Rattle.model_shapes.specs.Values.{Value};
ghost use Rattle.model_shapes.specs.Trees.{Trees, WellFormed};
ghost use Rattle.model_shapes.specs.Shapes.{Shaped, SameAt};
ghost use Rattle.model_terms.specs.Terms.{Term};
ghost use Rattle.model_formulas.specs.Formulas.{Formula};
ghost use Rattle.model_formulas.specs.Satisfaction.{Environment};
ghost use Rattle.model_terms.specs.Stores.{ProgVar, Store, value_in, value_of};
ghost use Rattle.model_commands.specs.Commands.{Command, Block, block, Modifies};
ghost use Rattle.model_commands.specs.CommandParts.{commands_in};
ghost use Rattle.model_commands.specs.Theories.{Procedure, Procedures, triple};
ghost use Rattle.model_groves.specs.Picks.{Pick};
ghost use Rattle.model_machine.specs.Machine.{FaultKind, Piece, run, move, pieces_of, entering, holding_values, start, Config, configuration, beginning, next, step, ended, runs};
ghost use Rattle.model_limits.specs.Limits.{Limits};
ghost use Rattle.model_machine.specs.Outcomes.{outcome, has_fault, no_pick};
ghost use Rattle.model_machine.specs.Parts.{parts_of, InSomeBody, after_picks};
ghost use Rattle.model_machine.specs.Changes.{change_of};
ghost use Rattle.model_machine.specs.Fitting.{ValuesFit, Fine, FitsConfig};
ghost use Rattle.model_commands.specs.SortTests.{BodiesSorted, is_sorted};
ghost use Rattle.model_machine.specs.LocalTriples.{EndsWith, HoldsLocally};
ghost use Rattle.model_machine.specs.ClassicalTriples.{Stands, TripleFor};
ghost use Rattle.model_machine.specs.Blocks.{Followed};
ghost use Rattle.model_machine.specs.SameMoves.{SameMove, SameOutcome};
ghost use Rattle.model_machine.specs.Behind.{Behind};

/// A run begins with a configuration that fits, and a call gives the parameters their values as the
/// beginning of a run does.
pub fn a_run_begins_with_what_fits()
    ensures start { (ps : Procedures) (f : Procedure) (values : List Value) (roots : Trees)
        → is_sorted ps f.body ≡ true → ValuesFit f.params values → Shaped (shape grove) roots
        → FitsConfig ps (start f values roots) }
    ensures call { (params : List ProgVar) (arguments : List Term) (store : Store)
        → entering params arguments store
        ≡ holding_values params (map (value_of store) arguments) }
{}

/// Steps and runs keep what fits: stores stay proper, and groves well formed.
pub fn runs_keep_what_fits()
    ensures step { (ps : Procedures) → BodiesSorted ps → (pick : Pick) (before after : Config)
        → FitsConfig ps before → step ps before pick ≡ next after → FitsConfig ps after }
    ensures run { (ps : Procedures) → BodiesSorted ps → (picks : List Pick) (config : Config)
        (store : Store) (roots : Trees) → FitsConfig ps config
        → runs ps picks config ≡ ended store roots → Fine store roots }
{}

/// A run of pieces followed by others is the run of the pieces, and then that of the others.
pub fn one_after_the_other()
    ensures { (ps : Procedures) (picks : List Pick) (config : Config) (others : List Piece)
        → Followed ps picks config others }
{}

/// The run of a block is, after the step into it, the runs of its commands one after the other.
pub fn a_block_is_its_commands()
    ensures enter { (ps : Procedures) (pick : Pick) (picks : List Pick) (b : Block) (store : Store)
        (roots : Trees) → runs ps (pick ∷ picks) (beginning (block b) store roots)
        ≡ runs ps picks (configuration (pieces_of b) store roots) }
    ensures each { (ps : Procedures) (picks : List Pick) (c : Command) (b : Block) (store : Store)
        (roots : Trees) → Followed ps picks (beginning c store roots) (pieces_of b) }
{}

/// On groves that are the same, one step does the same up to the order of roots, and so does a run.
pub fn same_groves_run_alike()
    ensures step { (a b : Trees) → SameAt grove a b → WellFormed a → (ps : Procedures) (pick : Pick)
        (piece : Piece) (store : Store)
        → SameMove (move ps pick piece store a) (move ps pick piece store b) }
    ensures run { (ps : Procedures) → BodiesSorted ps → (picks : List Pick) (config : Config)
        (roots : Trees) → FitsConfig ps config → SameAt grove config.grove roots
        → SameOutcome (runs ps picks config) (runs ps picks (record config { grove = roots })) }
{}

/// Where a command's run ends, the variables that it doesn't change have the values that they had.
pub fn unmodified_variables_stay()
    ensures { (ps : Procedures) (x : ProgVar) (c : Command) → (Modifies c x → ⊥)
        → (picks : List Pick) (store after : Store) (roots roots_after : Trees)
        → runs ps picks (beginning c store roots) ≡ ended after roots_after
        → value_in after x ≡ value_in store x }
{}

/// A step that isn't among the changes leaves the grove as it was.
pub fn steps_without_a_change_leave_the_grove()
    ensures { (ps : Procedures) (pick : Pick) (before after : Config) (n : ℕ)
        → step ps before pick ≡ next after → change_of n pick before ≡ None
        → after.grove ≡ before.grove }
{}

/// The next pick of a grove is free, so no pick of a run within the fuel is bad.
pub fn no_outcome_is_a_bad_pick()
    ensures { (limits : Limits) (ps : Procedures) (results : List ProgVar) (fuel taken : ℕ)
        (config : Config) → outcome limits ps results fuel taken config ≡ no_pick → ⊥ }
{}

/// What runs stands in the bodies of the procedures: over any picks, a command that is pending is
/// part of a body, and one that faults within the fuel is a command of a body.
pub fn what_runs_stands_in_a_body()
    ensures pending { (ps : Procedures) (f : Procedure) → Contains ps f → (values : List Value)
        (roots : Trees) (picks : List Pick) (after : Config)
        → after_picks ps picks (start f values roots) ≡ Some after
        → (c : Command) → Contains after.pending (run c) → InSomeBody parts_of ps c }
    ensures fault { (ps : Procedures) (limits : Limits) (f : Procedure) → Contains ps f
        → (values : List Value) (roots : Trees) (results : List ProgVar) (fuel taken steps : ℕ)
        (kind : FaultKind) (c : Command)
        → outcome limits ps results fuel taken (start f values roots) ≡ has_fault kind steps c
        → InSomeBody commands_in ps c }
{}

/// Behind each outcome within the fuel there is a run of as many steps; behind a limit that would
/// be passed, one that is still running.
pub fn outcomes_are_runs()
    ensures { (limits : Limits) (ps : Procedures) (results : List ProgVar) (fuel taken : ℕ)
        (config : Config)
        → Behind ps results taken config (outcome limits ps results fuel taken config) }
{}

/// Where a run ends in a well-formed grove with some data in the context, read classically, it ends
/// so plainly: what stands in the context can be computed.
pub fn ends_plainly()
    ensures { (d : DataSort) (around : Trees) (post : Formula) (e : Environment) (store : Store)
        (roots : Trees) → Shaped (context d grove) around → Shaped (shape grove) roots
        → Stands d around post e store roots → EndsWith d around post e store roots }
{}

/// A triple whose end is read classically, over all runs, is a local triple: what stands in the
/// context at the end can be computed. And a local triple is such a one.
pub fn classical_triples_end_plainly()
    ensures plain { (ps : Procedures) (pre : Formula) (c : Command) (post : Formula) (d : DataSort)
        → BodiesSorted ps → is_sorted ps c ≡ true → TripleFor ps (λ n. Unit) pre c post d
        → HoldsLocally ps pre c post d }
    ensures classical { (ps : Procedures) (pre : Formula) (c : Command) (post : Formula)
        (d : DataSort) → HoldsLocally ps pre c post d → TripleFor ps (λ n. Unit) pre c post d }
{}
