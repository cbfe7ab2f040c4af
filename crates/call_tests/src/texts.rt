// Texts that are written and read by calls that the program doesn't make.
use dom_terms::{DataSort, LogicVar, OutOfMemory, Sort, Text};
use formula_syntax::{AnyVar, Formula};
use logic_text::{read_formula, write_formula};
use proof_text::read_theory;
use std::alloc::Global;
use std::test::Fail;
use text_tokens::token_list;
use theory_writing::write_theory;

// A logic variable for a tree.
fn tree(alloc: Global) -> Result<LogicVar, OutOfMemory> {
    let name = Text::from_str(alloc, "$x")?;
    let sort = Sort::Shape(DataSort::Tree);
    Ok(LogicVar { name, sort })
}

// The sort of a variable that is the root on the right of a sum, and nothing else.
fn sort_in_root(formula: &Formula) -> Option<Sort> {
    let Formula::Plus(_, right) = formula else {
        return None;
    };
    let Formula::Root(inner) = &**right else {
        return None;
    };
    match &**inner {
        Formula::Var(variable) => Some(variable.sort),
        _ => None,
    }
}

// What is written of a formula that was read with a logic variable for a tree, and the sort that
// the variable got.
fn read_and_written(alloc: Global) -> Result<(Text, Option<Sort>), Fail> {
    let tokens = token_list(alloc, b"(0g + [$x])")?;
    let vars = vec![in alloc; AnyVar::Logic(tree(alloc)?)]?;
    let formula = read_formula(alloc, &tokens, &vars)?;
    let sort = sort_in_root(&formula);
    let text = write_formula(alloc, &formula);
    drop(formula);
    Ok((text?, sort))
}

#[test]
fn a_formula_is_read_with_the_sorts_of_a_list(rt: HostRuntime) -> Result<(), Fail> {
    let (text, sort) = read_and_written(rt.alloc())?;
    assert_eq!(rt; text.as_str(), "( 0g + [ $x ] )");
    assert!(rt; matches!(sort, Some(Sort::Shape(DataSort::Tree))));
    Ok(())
}

const LINES: &str = "domlogic 1
proc f ( a : int ) returns ( ) sort g
requires true
ensures true
body skip
proof
step 1 auto : 0g entails true at g ;
end
";

#[test]
fn a_theory_is_written_line_by_line(rt: HostRuntime) -> Result<(), Fail> {
    let alloc = rt.alloc();
    let tokens = token_list(alloc, LINES.as_bytes())?;
    let theory = read_theory(alloc, &tokens)?;
    let text = write_theory(alloc, &theory);
    drop(theory);
    assert_eq!(rt; text?.as_str(), LINES);
    Ok(())
}
