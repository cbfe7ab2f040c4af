// What a row makes of the formula that is asked for after the command.
ghost use Rattle.std.specs.Prelude.{◌≡◌, IfOk};
ghost use Rattle.model_shapes.specs.Sorts.{grove};
ghost use Rattle.model_formulas.specs.Formulas.{universal, context_adjoint};
ghost use Rattle.formula_syntax.specs.Formulas.{formula_of};
ghost use Rattle.model_weakest.specs.Rows.{written_moving, written_taking, node_of, list_of};
ghost use Rattle.wp_calc.specs.Rows.{name_at, places_of, row_in, variable_of};

use crate::rows::{Filling, Row, boxed, new_at};
use dom_terms::{DataSort, OutOfMemory, Sort, ValueSort, with};
use formula_syntax::Formula;

/// `(exists $v . (P and Q))`, P being the row's.
pub(crate) fn taking(row: &Row, filling: &Filling, asked: Formula) -> Result<Formula, OutOfMemory>
    ensures { let places = places_of filling.now in IfOk result (λ formula. formula_of formula
        ≡ written_taking (variable_of places) (name_at places 0) (row_in places row.now)
        (formula_of asked)) }
{
    let (asked, row) = with(asked, boxed(row, filling))?;
    let (row, asked) = with(row, Box::new(filling.alloc, asked))?;
    let sort = Sort::Value(filling.sort);
    let (value, both) = with(
        new_at(0, sort, filling)?,
        Box::new(filling.alloc, Formula::And(row, asked)),
    )?;
    Ok(Formula::Exists(value, both))
}

/// `(exists $r . (P and ($r is Q)))`, P being the row's.
pub(crate) fn moving(row: &Row, filling: &Filling, asked: Formula) -> Result<Formula, OutOfMemory>
    ensures { let places = places_of filling.now in IfOk result (λ formula. formula_of formula
        ≡ written_moving (name_at places 0) (row_in places row.now) (formula_of asked)) }
{
    let sort = Sort::Shape(DataSort::Grove);
    let (asked, grove) = with(asked, new_at(0, sort, filling))?;
    let (grove, asked) = with(grove, Box::new(filling.alloc, asked))?;
    let after = Formula::Is(grove, asked);
    let (after, row) = with(after, boxed(row, filling))?;
    let (row, after) = with(row, Box::new(filling.alloc, after))?;
    let (grove, both) = with(
        new_at(0, sort, filling)?,
        Box::new(filling.alloc, Formula::And(row, after)),
    )?;
    Ok(Formula::Exists(grove, both))
}

/// `(forall $v . (forall $m . (K o-g Q)))`, K being the row's.
pub(crate) fn adding(row: &Row, filling: &Filling, asked: Formula) -> Result<Formula, OutOfMemory>
    ensures { let places = places_of filling.now in IfOk result (λ formula. formula_of formula
        ≡ universal (node_of (name_at places 0)) (universal (list_of (name_at places 1))
        (context_adjoint grove (row_in places row.now) (formula_of asked)))) }
{
    let (asked, row) = with(asked, boxed(row, filling))?;
    let (row, asked) = with(row, Box::new(filling.alloc, asked))?;
    let all = Formula::CtxAdj(DataSort::Grove, row, asked);
    let (list, all) = with(
        new_at(1, Sort::Value(ValueSort::List), filling)?,
        Box::new(filling.alloc, all),
    )?;
    let all = Formula::Forall(list, all);
    let (node, all) = with(
        new_at(0, Sort::Value(ValueSort::Node), filling)?,
        Box::new(filling.alloc, all),
    )?;
    Ok(Formula::Forall(node, all))
}
