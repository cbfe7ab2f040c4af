// The places of a theory, and the first kind of fault at one.
ghost use Rattle.std.specs.Prelude.{◌≡◌, ◌&&◌, ◌++◌, [], Bool, map, true, IfOk};
ghost use Rattle.std.specs.Bool.{OnTrue};
ghost use Rattle.std.specs.Option.{option_map};
ghost use Rattle.std.specs.List.{list_all};
ghost use Rattle.model_shapes.specs.Sorts.{shape};
ghost use Rattle.model_commands.specs.CommandParts.{arguments_of, locals_of, variables_of};
ghost use Rattle.model_files.specs.FileFaults as model;
ghost use Rattle.model_files.specs.FileFaults.{declared_by};
ghost use Rattle.dom_terms.specs.Sorts.{sort_of};
ghost use Rattle.dom_terms.specs.Terms.{logic_var_of, term_of};
ghost use Rattle.formula_syntax.specs.Formulas.{formula_of};
ghost use Rattle.theory_syntax.specs.Commands.{command_of};
ghost use Rattle.theory_syntax.specs.Judgements.{judgement_of, reason_of, step_of};
ghost use Rattle.theory_syntax.specs.Theories.{procedure_of};
ghost use Rattle.dom_syntax.specs.Apt.{HeadApt, StepApt, is_apt};
ghost use Rattle.dom_syntax.specs.Contents.{commands_there, variables_in};
ghost use Rattle.dom_syntax.specs.Faults.{kind_of};
ghost use Rattle.dom_syntax.specs.Heads.{earlier_for};
ghost use Rattle.dom_syntax.specs.Scopes.{HasNames, IsScope, names_in, procedure_in, theory_in};
ghost use Rattle.dom_syntax.specs.ScopeTests.{HeadSettled, StepSettled};
ghost use Rattle.dom_syntax.specs.Judged.{HeadJudged};
ghost use Rattle.declared_sorts.specs.Settled.{is_settled};
ghost use Rattle.model_files.specs.Sizes.{IsSmall, JudgementIsSmall};

use crate::contents::Contents;
use crate::kinds::FileKind;
use crate::part_tests::{Apt, CalleeKnown, OfVersion, PartsFit, ResultsApart, Spares};
use crate::rule_names::is_rule_of_version;
use crate::scope_tests::{AsDeclared, Known, OnlyAmong};
use crate::scopes::{Names, Scope};
use crate::sort_tests::{is_sort, is_step_argument};
use crate::variable_tests::all_in_formula;
use dom_terms::{LogicVar, OutOfMemory, Sort, Term};
use formula_syntax::{Formula, sorted_as};
use std::alloc::Global;
use theory_syntax::{Command, Judgement, Procedure, Reason, Step};

// The kinds in the order in which they count at one place.
const KINDS: [FileKind; 9] = [
    FileKind::Version,
    FileKind::Twice,
    FileKind::Unknown,
    FileKind::Sort,
    FileKind::Constant,
    FileKind::Results,
    FileKind::Scope,
    FileKind::Rule,
    FileKind::Number,
];

/// A place of a theory, which is tested for each kind. What stands there is handed in: a type that
/// pointed at a step besides the names would reach more fields than a type may.
pub(crate) trait Place<T> {
    // the tests may be asked
    ghost ready: { Self → T → Type 0 };

    // there is no fault of the kind
    ghost tests: { Self → T → model.FileKind → Bool };

    /// Whether there is no fault of the kind.
    fn passes(&self, there: &T, kind: FileKind) -> Result<bool, OutOfMemory>
        requires { ready self.now there.now }
        ensures { IfOk result (λ b. b ≡ tests self.now there.now (kind_of kind)) };
}

/// The first kind of which there is a fault at the place.
pub(crate) fn first_kind<T, P: Place<T>>(
    place: &P,
    there: &T,
) -> Result<Option<FileKind>, OutOfMemory>
    requires { P.ready place.now there.now }
    ensures { IfOk result
        (λ kind. option_map kind_of kind ≡ model.first_kind (P.tests place.now there.now)) }
{
    for kind in KINDS {
        if !place.passes(there, kind)? {
            return Ok(Some(kind));
        }
    }
    Ok(None)
}

// Whether each variable that stands there is declared, first with its sort. Where that is told, it
// holds at once.
fn are_settled(scope: &Scope, contents: &Contents, told: bool) -> Result<bool, OutOfMemory>
    requires scope { IsScope scope.now }
    requires settled { OnTrue told
        (list_all (is_settled (names_in scope.now)) (variables_in contents.now) ≡ true) }
    ensures { IfOk result (λ b. b
        ≡ list_all (is_settled (names_in scope.now)) (variables_in contents.now)) }
{
    let declared = AsDeclared {
        scope,
        takes_unknown: false,
    };
    contents.all_pass(&declared, told)
}

/// What is known of what stands at a place. Where a field is false, nothing is known.
#[derive(Clone, Copy)]
pub(crate) struct Sure {
    /// Its variables are declared, first with the sorts that they have.
    pub(crate) are_settled: bool,
    /// Its commands pass each test that is asked of a command by itself.
    pub(crate) are_apt: bool,
}

/// What is asked once of all that stands there, so that mostly it isn't asked for each kind of
/// fault. Where it is told that the variables are settled, they aren't asked.
pub(crate) fn sure_of(
    alloc: Global,
    scope: &Scope,
    contents: &Contents,
    told: bool,
) -> Result<Sure, OutOfMemory>
    requires scope { IsScope scope.now }
    requires settled { OnTrue told
        (list_all (is_settled (names_in scope.now)) (variables_in contents.now) ≡ true) }
    ensures { IfOk result (λ sure. (sure.are_settled
        ≡ list_all (is_settled (names_in scope.now)) (variables_in contents.now))
        × (sure.are_apt ≡ list_all (is_apt scope.now) (commands_there contents.now))) }
{
    Ok(Sure {
        are_settled: are_settled(scope, contents, told)?,
        are_apt: contents.all_commands(&Apt { alloc, scope })?,
    })
}

// Whether there is no fault of the kind among the variables and commands that stand in a procedure,
// of which something may be sure.
#[tactic(auto, using(crate::proofs::AptLaws::sure_rules))]
fn passes_inside(
    alloc: Global,
    scope: &Scope,
    contents: &Contents,
    sure: Sure,
    kind: FileKind,
) -> Result<bool, OutOfMemory>
    requires scope { IsScope scope.now }
    requires settled { OnTrue sure.are_settled
        (list_all (is_settled (names_in scope.now)) (variables_in contents.now) ≡ true) }
    requires apt { OnTrue sure.are_apt
        (list_all (is_apt scope.now) (commands_there contents.now) ≡ true) }
    ensures { IfOk result (λ b. b ≡ model.inside (theory_in scope.now.names.now)
        (procedure_in scope.now) (variables_in contents.now) (commands_there contents.now)
        (kind_of kind)) }
{
    let declared = AsDeclared {
        scope,
        takes_unknown: true,
    };
    match kind {
        FileKind::Version => {
            let version = scope.names.theory.version;
            contents.all_fit(&OfVersion { version }, sure.are_apt)
        }
        FileKind::Unknown => Ok(
            contents.all_pass(&Known(scope), sure.are_settled)?
                && contents.all_fit(&CalleeKnown(scope.names), sure.are_apt)?,
        ),
        FileKind::Sort => Ok(
            contents.all_pass(&declared, sure.are_settled)?
                && contents.all_fit(&PartsFit(scope.names), sure.are_apt)?,
        ),
        FileKind::Constant => contents.all_fit(&Spares(scope), sure.are_apt),
        FileKind::Results => contents.all_fit(&ResultsApart { alloc }, sure.are_apt),
        _ => Ok(true),
    }
}

// Whether the formula may be judged at the sort.
fn is_judged_at(formula: &Formula, sort: Sort) -> bool
    requires { IsSmall (formula_of formula.now) }
    ensures { result ≡ model.is_judged_at (sort_of sort) (formula_of formula.now) }
{
    sorted_as(formula, sort).is_ok()
}

// Whether the declared sort of each logic variable is a sort.
fn are_logic_sorts(variables: &[LogicVar]) -> bool
    ensures { result ≡ list_all model.may_bind (map logic_var_of variables.now) }
{
    for variable in variables {
        if !is_sort(variable.sort) {
            return false;
        }
    }
    true
}

// Whether it is a version of the language.
fn is_version(version: u32) -> bool
    ensures { result ≡ model.is_version version }
{
    version == 1 || version == 2
}

/// The version and the logic declarations of the theory that the names are of.
#[derive(Drop)]
pub(crate) struct Declarations;

impl<'a> Place<Names<'a>> for Declarations {
    ghost ready = { λ _ there. HasNames there };

    ghost tests = { λ _ there kind. model.declarations (theory_in there) kind };

    #[tactic(auto, using(crate::proofs::PlaceLaws::place_rules))]
    fn passes(&self, there: &Names<'a>, kind: FileKind) -> Result<bool, OutOfMemory> {
        match kind {
            FileKind::Version => Ok(is_version(there.theory.version)),
            FileKind::Twice => Ok(!there.logic.repeats),
            FileKind::Sort => Ok(are_logic_sorts(there.theory.logic.as_slice())),
            _ => Ok(true),
        }
    }
}

/// The header and the body of the procedure of a scope, whose name is new or not.
#[derive(Drop)]
pub(crate) struct Header {
    pub(crate) alloc: Global,
    pub(crate) is_new: bool,
    pub(crate) sure: Sure,
    /// Both formulas may be judged at its sort; where not, that isn't known.
    pub(crate) is_judged: bool,
}

// Whether both formulas of the header may be judged at its sort.
fn is_head_judged(scope: &Scope) -> bool
    requires pre { IsSmall (procedure_in scope.now).pre }
    requires post { IsSmall (procedure_in scope.now).post }
    ensures { result ≡ (model.is_judged_at (shape (procedure_in scope.now).sort)
        (procedure_in scope.now).pre
        && model.is_judged_at (shape (procedure_in scope.now).sort)
        (procedure_in scope.now).post) }
{
    let sort = Sort::Shape(scope.procedure.sort);
    is_judged_at(&scope.procedure.pre, sort) && is_judged_at(&scope.procedure.post, sort)
}

// Whether the command can be seen at once to have no local variables.
fn has_no_locals(command: &Command) -> bool
    ensures { OnTrue result (locals_of (command_of command.now) ≡ []) }
{
    match command {
        Command::Skip | Command::Assign(_, _) | Command::Call(_, _, _) => true,
        _ => false,
    }
}

// Whether the procedure can be seen at once to declare nothing but its parameters.
fn has_params_alone(procedure: &Procedure) -> bool
    ensures { OnTrue result
        (declared_by (procedure_of procedure.now) ≡ (procedure_of procedure.now).params) }
{
    procedure.results.is_empty() && has_no_locals(&procedure.body)
}

// Whether the program variables of both formulas are such as they may have. Settled ones are where
// nothing but parameters is declared.
fn is_settled_head_in_scope(scope: &Scope, are_settled: bool) -> bool
    requires scope { IsScope scope.now }
    requires settled { HeadSettled are_settled scope.now }
    ensures { result ≡ (model.only_among (procedure_in scope.now).params
        (variables_of (procedure_in scope.now).pre)
        && model.only_among ((procedure_in scope.now).params ++ (procedure_in scope.now).results)
        (variables_of (procedure_in scope.now).post)) }
{
    if are_settled && has_params_alone(scope.procedure) {
        return true;
    }
    is_head_in_scope(scope)
}

// The same, asked of each variable.
#[tactic(auto, using(crate::proofs::PlaceLaws::scope_rules))]
fn is_head_in_scope(scope: &Scope) -> bool
    requires { IsScope scope.now }
    ensures { result ≡ (model.only_among (procedure_in scope.now).params
        (variables_of (procedure_in scope.now).pre)
        && model.only_among ((procedure_in scope.now).params ++ (procedure_in scope.now).results)
        (variables_of (procedure_in scope.now).post)) }
{
    let before = OnlyAmong {
        scope,
        takes_results: false,
    };
    let after = OnlyAmong {
        scope,
        takes_results: true,
    };
    all_in_formula(&before, &scope.procedure.pre) && all_in_formula(&after, &scope.procedure.post)
}

impl<'a> Place<Scope<'a>> for Header {
    ghost ready = { λ head there. IsScope there
        × IsSmall (procedure_in there).pre
        × IsSmall (procedure_in there).post
        × HeadSettled head.sure.are_settled there
        × HeadApt head.sure.are_apt there
        × HeadJudged head.is_judged (procedure_in there) };

    ghost tests = { λ head there kind. model.header (theory_in there.names.now)
        (earlier_for head.is_new (procedure_in there)) (procedure_in there) kind };

    #[tactic(auto, using(crate::proofs::PlaceLaws::place_rules))]
    fn passes(&self, there: &Scope<'a>, kind: FileKind) -> Result<bool, OutOfMemory> {
        match kind {
            FileKind::Twice => Ok(self.is_new && !there.variables.repeats),
            FileKind::Sort => Ok(
                (self.is_judged || is_head_judged(there)) && self.passes_inside(there, kind)?,
            ),
            FileKind::Scope => Ok(is_settled_head_in_scope(there, self.sure.are_settled)),
            _ => self.passes_inside(there, kind),
        }
    }
}

impl Header {
    // Whether there is no fault of the kind among its variables and commands.
    fn passes_inside(&self, scope: &Scope, kind: FileKind) -> Result<bool, OutOfMemory>
        requires scope { IsScope scope.now }
        requires settled { HeadSettled self.now.sure.are_settled scope.now }
        requires apt { HeadApt self.now.sure.are_apt scope.now }
        ensures { IfOk result (λ b. b ≡ model.inside_head (theory_in scope.now.names.now)
            (procedure_in scope.now) (kind_of kind)) }
    {
        let contents = Contents::of_head(scope.procedure);
        passes_inside(self.alloc, scope, &contents, self.sure, kind)
    }
}

// Whether the formulas of the judgement may be judged at its sort.
fn is_judgement_sorted(judgement: &Judgement) -> bool
    requires { JudgementIsSmall (judgement_of judgement.now) }
    ensures { result ≡ model.judgement_sorted (judgement_of judgement.now) }
{
    match judgement {
        Judgement::Entails(entailment) => {
            is_judged_at(&entailment.left, entailment.sort)
                && is_judged_at(&entailment.right, entailment.sort)
        }
        Judgement::Triple(triple) => {
            let sort = Sort::Shape(triple.sort);
            is_judged_at(&triple.pre, sort) && is_judged_at(&triple.post, sort)
        }
    }
}

// Whether each may be an argument of a step.
fn are_step_arguments(arguments: &[Term]) -> bool
    ensures { result ≡ list_all model.is_argument (map term_of arguments.now) }
{
    for argument in arguments {
        if !is_step_argument(argument) {
            return false;
        }
    }
    true
}

// Whether the arguments of the reason may be such.
fn are_arguments_sorted(reason: &Reason) -> bool
    ensures { result ≡ list_all model.is_argument (arguments_of (reason_of reason.now)) }
{
    match reason {
        Reason::Auto => true,
        Reason::Rule { arguments, .. } => are_step_arguments(arguments.as_slice()),
    }
}

// Whether the rule is one of the version, if there is one.
fn is_rule_known(version: u32, reason: &Reason) -> bool
    ensures { result ≡ model.rule_known version (reason_of reason.now) }
{
    match reason {
        Reason::Auto => true,
        Reason::Rule { name, .. } => is_rule_of_version(version, name),
    }
}

/// A step of the procedure of the scope, at this place of its proof.
#[derive(Drop)]
pub(crate) struct ProofStep<'a> {
    pub(crate) alloc: Global,
    pub(crate) scope: &'a Scope<'a>,
    pub(crate) place: u32,
    pub(crate) sure: Sure,
    /// The formulas of its judgement may be judged at its sort; where not, that isn't known.
    pub(crate) is_judged: bool,
}

impl<'a> ProofStep<'a> {
    // Whether there is no fault of the kind among its variables and commands.
    fn passes_inside(&self, step: &Step, kind: FileKind) -> Result<bool, OutOfMemory>
        requires scope { IsScope self.now.scope.now }
        requires settled { StepSettled self.now.sure.are_settled self.now.scope.now
            (step_of step.now) }
        requires apt { StepApt self.now.sure.are_apt self.now.scope.now (step_of step.now) }
        ensures { IfOk result (λ b. b ≡ model.inside_step (theory_in self.now.scope.now.names.now)
            (procedure_in self.now.scope.now) (step_of step.now) (kind_of kind)) }
    {
        let contents = Contents::of_step(step);
        passes_inside(self.alloc, self.scope, &contents, self.sure, kind)
    }
}

impl<'a> Place<Step> for ProofStep<'a> {
    ghost ready = { λ at there. IsScope at.scope.now
        × JudgementIsSmall (judgement_of there.judgement)
        × StepSettled at.sure.are_settled at.scope.now (step_of there)
        × StepApt at.sure.are_apt at.scope.now (step_of there)
        × OnTrue at.is_judged
        (model.judgement_sorted (judgement_of there.judgement) ≡ true) };

    ghost tests = { λ at there kind. model.proof_step (theory_in at.scope.now.names.now)
        (procedure_in at.scope.now) at.place (step_of there) kind };

    fn passes(&self, there: &Step, kind: FileKind) -> Result<bool, OutOfMemory> {
        match kind {
            FileKind::Sort => Ok(
                (self.is_judged || is_judgement_sorted(&there.judgement))
                    && are_arguments_sorted(&there.reason)
                    && self.passes_inside(there, kind)?,
            ),
            FileKind::Rule => Ok(is_rule_known(self.scope.names.theory.version, &there.reason)),
            FileKind::Number => Ok(there.number == self.place),
            _ => self.passes_inside(there, kind),
        }
    }
}
