// Comparisons joined by `and`, each with the number that it is multiplied by.
ghost use Rattle.std.specs.Prelude.{◌≡◌, map, IfOk};
ghost use Rattle.std.specs.Option.{option_map};
ghost use Rattle.std.specs.List.{list_all};
ghost use Rattle.dom_terms.specs.Terms.{term_of};
ghost use Rattle.formula_syntax.specs.Formulas.{formula_of};
ghost use Rattle.computed_rules.specs.Linear as tests;
ghost use Rattle.computed_rules.specs.Sums.{comparison_of, test_of};

use dom_terms::{OutOfMemory, Term, ValueSort, both_have};
use formula_syntax::Formula;

// the most that a number may be, and the least below 0
const MOST: i64 = 1_000_000;

// a comparison with its number: an order, or else an equation
#[derive(Clone, Copy)]
pub(crate) struct Comparison<'a> {
    pub(crate) number: i64,
    pub(crate) is_order: bool,
    pub(crate) left: &'a Term,
    pub(crate) right: &'a Term,
}

// what is asked of a comparison
#[derive(Clone, Copy)]
pub(crate) enum Test {
    // its terms are integers
    Integral,
    // its number is in range, and at least 0 at an order
    Fair,
    // it is an equation, or doesn't count
    Equation,
}

// Puts the comparisons of the formula with the first numbers after those that were found. What it
// answers are the numbers that are left: none, where the formula or the numbers don't fit.
pub(crate) fn read<'a>(
    formula: &'a Formula,
    numbers: &'a [Term],
    found: &mut Vec<Comparison<'a>>,
) -> Result<Option<&'a [Term]>, OutOfMemory>
    ensures { IfOk result (λ rest. tests.read (map comparison_of found.old.items)
        (formula_of formula.now) (map term_of numbers.now)
        ≡ option_map (λ left. (map comparison_of found.new.items, map term_of left.now)) rest) }
{
    match formula {
        Formula::And(left, right) => match read(left, numbers, found)? {
            Some(rest) => read(right, rest, found),
            None => Ok(None),
        },
        Formula::Le(left, right) => compared(true, left, right, numbers, found),
        Formula::Eq(left, right) => compared(false, left, right, numbers, found),
        _ => Ok(None),
    }
}

// the same for one comparison
fn compared<'a>(
    is_order: bool,
    left: &'a Term,
    right: &'a Term,
    numbers: &'a [Term],
    found: &mut Vec<Comparison<'a>>,
) -> Result<Option<&'a [Term]>, OutOfMemory>
    ensures { IfOk result (λ rest. tests.compared is_order (map comparison_of found.old.items)
        (term_of left.now) (term_of right.now) (map term_of numbers.now)
        ≡ option_map (λ left. (map comparison_of found.new.items, map term_of left.now)) rest) }
{
    match numbers {
        [Term::Int(number), rest @ ..] => {
            let number = *number;
            found.push(Comparison {
                number,
                is_order,
                left,
                right,
            })?;
            Ok(Some(rest))
        }
        _ => Ok(None),
    }
}

// whether each of the comparisons passes the test
pub(crate) fn all_pass(test: Test, comparisons: &[Comparison]) -> bool
    ensures { result ≡ list_all (test_of test) (map comparison_of comparisons.now) }
{
    let mut rest = comparisons;
    'comparisons: while let [comparison, others @ ..] = rest {
        if !passes(test, comparison) {
            return false;
        }
        rest = others;
    }
    true
}

// whether one passes it
fn passes(test: Test, comparison: &Comparison) -> bool
    ensures { result ≡ test_of test (comparison_of comparison.now) }
{
    let number = comparison.number;
    match test {
        Test::Integral => both_have(ValueSort::Int, comparison.left, comparison.right),
        Test::Fair => { -MOST <= number && number <= MOST && (!comparison.is_order || 0 <= number) }
        Test::Equation => !comparison.is_order || number == 0,
    }
}
