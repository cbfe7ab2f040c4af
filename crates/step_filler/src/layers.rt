// The plans by filling, written layer by layer.
ghost use Rattle.std.specs.Prelude.{◌≡◌, ◌++◌, true, false, IfOk, codes, []};
ghost use Rattle.model_shapes.specs.Sorts.{shape};
ghost use Rattle.assistant_laws.specs.Fillings.{filling};
ghost use Rattle.assistant_laws.specs.Ways.{itself, read_so, turned};
ghost use Rattle.dom_terms.specs.Sorts.{data_sort_of, sort_of};
ghost use Rattle.formula_syntax.specs.Formulas.{formula_of};
ghost use Rattle.step_filler.specs.Drafts.{IsReady, WritesOne, WritesPlan};
ghost use Rattle.step_filler.specs.Layers as layer;
ghost use Rattle.step_filler.specs.Layers.{applied, around, between, changed, changing};
ghost use Rattle.step_filler.specs.Layers.{entered, entering, in_hole, inner_plan, passed};
ghost use Rattle.step_filler.specs.Layers.{plan_of, said, way_of};

use crate::drafts::{Draft, Stop};
use dom_terms::{Copied, DataSort, OutOfMemory, Sort, copies, with};
use formula_syntax::{Entailment, Formula, Side};
use std::alloc::Global;

/// Which of two formulas entails the other.
#[derive(Clone, Copy, Debug, PartialEq, Eq)]
pub(crate) enum Way {
    /// The first the second.
    Onward,
    /// The second the first.
    Backward,
}

/// What fills the hole of a context formula.
#[derive(Drop)]
pub(crate) struct Filling {
    /// Whether from the application to the filling, or back.
    pub way: Way,
    /// The sort of the hole.
    pub hole: DataSort,
    /// What is put into it.
    pub filler: Formula,
}

// Whether the outermost part is a layer around another context formula.
fn is_layer(context: &Formula) -> bool
    ensures { result ≡ layer.is_layer (formula_of context.now) }
{
    match context {
        Formula::Node(_, _, _, _) | Formula::One(_) | Formula::Root(_) => true,
        Formula::Join(side, _, _) => !matches!(side, Side::Whole),
        Formula::PlusHole(_, _) => true,
        _ => false,
    }
}

// The sort of what the layer gives.
fn layer_sort(context: &Formula) -> DataSort
    ensures { data_sort_of result ≡ layer.layer_sort (formula_of context.now) }
{
    match context {
        Formula::One(_) | Formula::Join(_, _, _) => DataSort::Forest,
        Formula::Root(_) | Formula::PlusHole(_, _) => DataSort::Grove,
        _ => DataSort::Tree,
    }
}

// The rule by which an application goes into the layer.
fn entering(context: &Formula) -> &'static str
    ensures { result.now ≡ entering (formula_of context.now) }
{
    match context {
        Formula::Node(_, _, _, _) => "app_node",
        Formula::One(_) => "app_tree",
        Formula::Root(_) => "app_root",
        Formula::Join(Side::HoleLeft, _, _) => "app_star_left",
        Formula::Join(Side::HoleRight, _, _) => "app_star_right",
        Formula::PlusHole(_, _) => "app_plus",
        _ => "hole_left",
    }
}

// The rule by which it goes out of the layer.
fn leaving(context: &Formula) -> &'static str
    ensures { result.now ≡ entering (formula_of context.now) ++ codes "_back" }
{
    match context {
        Formula::Node(_, _, _, _) => "app_node_back",
        Formula::One(_) => "app_tree_back",
        Formula::Root(_) => "app_root_back",
        Formula::Join(Side::HoleLeft, _, _) => "app_star_left_back",
        Formula::Join(Side::HoleRight, _, _) => "app_star_right_back",
        Formula::PlusHole(_, _) => "app_plus_back",
        _ => "hole_left_back",
    }
}

// The rule by which the part of the layer is changed.
fn changing(context: &Formula) -> &'static str
    ensures { result.now ≡ changing (formula_of context.now) }
{
    match context {
        Formula::One(_) => "mono_tree",
        Formula::Root(_) => "mono_root",
        Formula::Join(_, _, _) => "mono_star",
        Formula::PlusHole(_, _) => "mono_plus",
        _ => "mono_node",
    }
}

// The layer around another part, which isn't a context.
fn around(alloc: Global, context: &Formula, part: Formula) -> Result<Formula, OutOfMemory>
    ensures { IfOk result (λ whole. formula_of whole
        ≡ around (formula_of context.now) (formula_of part)) }
{
    match context {
        Formula::Node(name, number, _, list) => {
            let (name, number) = copies(alloc, name, number)?;
            let list = list.copy(alloc)?;
            Ok(Formula::Node(name, number, Box::new(alloc, part)?, list))
        }
        Formula::One(_) => Ok(Formula::One(Box::new(alloc, part)?)),
        Formula::Root(_) => Ok(Formula::Root(Box::new(alloc, part)?)),
        Formula::Join(Side::HoleLeft, _, beside) => {
            let beside = Box::new(alloc, beside.copy(alloc)?)?;
            Ok(Formula::Join(Side::Whole, Box::new(alloc, part)?, beside))
        }
        Formula::Join(Side::HoleRight, beside, _) => {
            let beside = Box::new(alloc, beside.copy(alloc)?)?;
            Ok(Formula::Join(Side::Whole, beside, Box::new(alloc, part)?))
        }
        Formula::PlusHole(_, beside) => {
            let beside = Box::new(alloc, beside.copy(alloc)?)?;
            Ok(Formula::Plus(Box::new(alloc, part)?, beside))
        }
        _ => Ok(part),
    }
}

/// The filling of the context.
pub(crate) fn filled(
    alloc: Global,
    filler: &Formula,
    context: &Formula,
) -> Result<Formula, OutOfMemory>
    ensures { IfOk result (λ whole. formula_of whole
        ≡ filling (formula_of filler.now) (formula_of context.now)) }
{
    match context {
        Formula::Hole(_) => filler.copy(alloc),
        Formula::Node(_, _, part, _)
        | Formula::One(part)
        | Formula::Root(part)
        | Formula::Join(Side::HoleLeft, part, _)
        | Formula::Join(Side::HoleRight, _, part)
        | Formula::PlusHole(part, _) => {
            let part = filled(alloc, filler, part)?;
            around(alloc, context, part)
        }
        _ => context.copy(alloc),
    }
}

// The application of the context.
fn applied(alloc: Global, filling: &Filling, context: &Formula) -> Result<Formula, OutOfMemory>
    ensures { IfOk result (λ whole. formula_of whole
        ≡ applied filling.now (formula_of context.now)) }
{
    let (context, filler) = copies(alloc, context, &filling.filler)?;
    let context = Box::new(alloc, context)?;
    Ok(Formula::App(filling.hole, context, Box::new(alloc, filler)?))
}

// The layer with the application inside.
fn between(alloc: Global, filling: &Filling, context: &Formula) -> Result<Formula, OutOfMemory>
    ensures { IfOk result (λ whole. formula_of whole
        ≡ between filling.now (formula_of context.now)) }
{
    match context {
        Formula::Node(_, _, part, _)
        | Formula::One(part)
        | Formula::Root(part)
        | Formula::Join(Side::HoleLeft, part, _)
        | Formula::Join(Side::HoleRight, _, part)
        | Formula::PlusHole(part, _) => {
            let part = applied(alloc, filling, part)?;
            around(alloc, context, part)
        }
        _ => context.copy(alloc),
    }
}

// That the first formula entails the second, or the other way round.
fn turned(way: Way, first: Formula, second: Formula, sort: DataSort) -> Entailment
    ensures { said result
        ≡ turned (way_of way) (formula_of first) (formula_of second) (shape (data_sort_of sort)) }
{
    let sort = Sort::Shape(sort);
    let (left, right) = match way {
        Way::Onward => (first, second),
        Way::Backward => (second, first),
    };
    Entailment { left, right, sort }
}

// That the application entails the layer with the application inside, or the other way round.
fn entered(alloc: Global, filling: &Filling, context: &Formula) -> Result<Entailment, OutOfMemory>
    ensures { IfOk result (λ asked. said asked ≡ entered filling.now (formula_of context.now)) }
{
    let start = applied(alloc, filling, context)?;
    let (start, middle) = with(start, between(alloc, filling, context))?;
    Ok(turned(filling.way, start, middle, layer_sort(context)))
}

// That the layer with the application inside entails the filling, or the other way round.
fn changed(alloc: Global, filling: &Filling, context: &Formula) -> Result<Entailment, OutOfMemory>
    ensures { IfOk result (λ asked. said asked ≡ changed filling.now (formula_of context.now)) }
{
    let middle = between(alloc, filling, context)?;
    let (middle, end) = with(middle, filled(alloc, &filling.filler, context))?;
    Ok(turned(filling.way, middle, end, layer_sort(context)))
}

// That the application entails the filling, or the other way round.
fn passed(alloc: Global, filling: &Filling, context: &Formula) -> Result<Entailment, OutOfMemory>
    ensures { IfOk result (λ asked. said asked ≡ passed filling.now (formula_of context.now)) }
{
    let start = applied(alloc, filling, context)?;
    let (start, end) = with(start, filled(alloc, &filling.filler, context))?;
    Ok(turned(filling.way, start, end, layer_sort(context)))
}

// Writes a step that says so.
fn say(
    alloc: Global,
    draft: &mut Draft,
    rule: &str,
    citations: &[u32],
    asked: &Entailment,
) -> Result<u32, Stop>
    requires ready { IsReady draft.old }
    ensures { WritesOne rule.now citations.now (said asked.now) draft.old draft.new result }
{
    draft.write(
        alloc,
        rule,
        citations,
        &asked.left,
        &asked.right,
        asked.sort,
    )
}

// The rule by which an application goes into the layer, or out of it.
fn crossing(way: Way, context: &Formula) -> &'static str
    ensures { result.now ≡ read_so (way_of way) (entering (formula_of context.now)) }
{
    match way {
        Way::Onward => entering(context),
        Way::Backward => leaving(context),
    }
}

// That the application of a hole entails what fills it, or the other way round.
fn in_hole(alloc: Global, filling: &Filling, context: &Formula) -> Result<Entailment, OutOfMemory>
    ensures { IfOk result (λ asked. said asked ≡ in_hole filling.now (formula_of context.now)) }
{
    let start = applied(alloc, filling, context)?;
    let (start, end) = with(start, filling.filler.copy(alloc))?;
    Ok(turned(filling.way, start, end, filling.hole))
}

// The rule by which it does.
fn filling_rule(way: Way) -> &'static str
    ensures { result.now ≡ read_so (way_of way) (codes "hole_left") }
{
    match way {
        Way::Onward => "hole_left",
        Way::Backward => "hole_left_back",
    }
}

// The application of a hole becomes what fills it, or the other way round.
fn fill_hole(
    alloc: Global,
    draft: &mut Draft,
    filling: &Filling,
    context: &Formula,
) -> Result<u32, Stop>
    requires ready { IsReady draft.old }
    ensures { WritesOne (read_so (way_of filling.now.way) (codes "hole_left")) []
        (in_hole filling.now (formula_of context.now)) draft.old draft.new result }
{
    let asked = in_hole(alloc, filling, context)?;
    say(alloc, draft, filling_rule(filling.way), &[], &asked)
}

// The application goes into the layer, or out of it.
fn cross(
    alloc: Global,
    draft: &mut Draft,
    filling: &Filling,
    context: &Formula,
) -> Result<u32, Stop>
    requires ready { IsReady draft.old }
    ensures { WritesOne
        (read_so (way_of filling.now.way) (entering (formula_of context.now))) []
        (entered filling.now (formula_of context.now)) draft.old draft.new result }
{
    let asked = entered(alloc, filling, context)?;
    say(alloc, draft, crossing(filling.way, context), &[], &asked)
}

// What is inside the layer becomes the filling there, or the other way round.
fn change(
    alloc: Global,
    draft: &mut Draft,
    filling: &Filling,
    context: &Formula,
    citations: &[u32],
) -> Result<u32, Stop>
    requires ready { IsReady draft.old }
    ensures { WritesOne (changing (formula_of context.now)) citations.now
        (changed filling.now (formula_of context.now)) draft.old draft.new result }
{
    let asked = changed(alloc, filling, context)?;
    say(alloc, draft, changing(context), citations, &asked)
}

// Both, one after the other.
fn pass(
    alloc: Global,
    draft: &mut Draft,
    filling: &Filling,
    context: &Formula,
    citations: &[u32],
) -> Result<u32, Stop>
    requires ready { IsReady draft.old }
    ensures { WritesOne (codes "cut") citations.now
        (passed filling.now (formula_of context.now)) draft.old draft.new result }
{
    let asked = passed(alloc, filling, context)?;
    say(alloc, draft, "cut", citations, &asked)
}

// From the part beside the hole to itself.
fn keep(alloc: Global, draft: &mut Draft, context: &Formula, beside: &Formula) -> Result<u32, Stop>
    requires ready { IsReady draft.old }
    ensures { WritesPlan
        (itself (formula_of beside.now) (shape (layer.layer_sort (formula_of context.now))))
        draft.old draft.new result }
{
    let sort = Sort::Shape(layer_sort(context));
    draft.write(alloc, "id", &[], beside, beside, sort)
}

// From the application inside the layer to the filling, or back.
#[cycle(fill)]
fn fill_inside(
    alloc: Global,
    draft: &mut Draft,
    filling: &Filling,
    context: &Formula,
) -> Result<u32, Stop>
    requires ready { IsReady draft.old }
    requires layer { layer.is_layer (formula_of context.now) ≡ true }
    ensures { WritesPlan (inner_plan filling.now (formula_of context.now))
        draft.old draft.new result }
{
    match context {
        Formula::Node(_, _, part, _) => {
            let inner = fill(alloc, draft, filling, part)?;
            change(alloc, draft, filling, context, &[inner])
        }
        Formula::One(part) => {
            let inner = fill(alloc, draft, filling, part)?;
            change(alloc, draft, filling, context, &[inner])
        }
        Formula::Root(part) => {
            let inner = fill(alloc, draft, filling, part)?;
            change(alloc, draft, filling, context, &[inner])
        }
        Formula::Join(Side::HoleRight, beside, part) => {
            let first = keep(alloc, draft, context, beside)?;
            let second = fill(alloc, draft, filling, part)?;
            change(alloc, draft, filling, context, &[first, second])
        }
        Formula::Join(Side::HoleLeft, part, beside) => {
            let first = fill(alloc, draft, filling, part)?;
            let second = keep(alloc, draft, context, beside)?;
            change(alloc, draft, filling, context, &[first, second])
        }
        Formula::PlusHole(part, beside) => {
            let first = fill(alloc, draft, filling, part)?;
            let second = keep(alloc, draft, context, beside)?;
            change(alloc, draft, filling, context, &[first, second])
        }
        _ => unreachable!(),
    }
}

// From the application of a layer to its filling, or back.
#[cycle(fill)]
fn fill_layer(
    alloc: Global,
    draft: &mut Draft,
    filling: &Filling,
    context: &Formula,
) -> Result<u32, Stop>
    requires ready { IsReady draft.old }
    requires layer { layer.is_layer (formula_of context.now) ≡ true }
    ensures { WritesPlan (plan_of filling.now (formula_of context.now))
        draft.old draft.new result }
{
    match filling.way {
        Way::Onward => {
            let first = cross(alloc, draft, filling, context)?;
            let second = fill_inside(alloc, draft, filling, context)?;
            pass(alloc, draft, filling, context, &[first, second])
        }
        Way::Backward => {
            let first = fill_inside(alloc, draft, filling, context)?;
            let second = cross(alloc, draft, filling, context)?;
            pass(alloc, draft, filling, context, &[first, second])
        }
    }
}

/// From the application of the context to its filling, or back.
#[cycle(fill)]
#[tactic(auto, using(crate::proofs::Layering::hole_written))]
pub(crate) fn fill(
    alloc: Global,
    draft: &mut Draft,
    filling: &Filling,
    context: &Formula,
) -> Result<u32, Stop>
    requires ready { IsReady draft.old }
    ensures { WritesPlan (plan_of filling.now (formula_of context.now))
        draft.old draft.new result }
{
    if is_layer(context) {
        return fill_layer(alloc, draft, filling, context);
    }
    fill_hole(alloc, draft, filling, context)
}
