// Triples by the axioms of the commands: a call that the program makes in other words.
use dom_terms::Verdict;
use small_axioms::axiom_instance;
use std::alloc::Global;
use std::test::Fail;
use theory_syntax::{Judgement, Theory};
use work_maker::make_theory;

// The verdicts of two axioms and of a rule on the first step of the theory.
fn verdicts(alloc: Global, theory: &Theory) -> Result<(Verdict, Verdict, Verdict), Fail> {
    let maker = theory.procedures.get(0).ok_or("no procedure")?;
    let first = maker.proof.get(0).ok_or("no step")?;
    let Judgement::Triple(creation) = &first.judgement else {
        return Err(Fail::from("no triple"));
    };
    let create = axiom_instance(alloc, "create", creation)?;
    let append = axiom_instance(alloc, "append", creation)?;
    Ok((create, append, axiom_instance(alloc, "seq", creation)?))
}

#[test]
fn a_triple_has_the_verdict_of_the_axiom_named(rt: HostRuntime) -> Result<(), Fail> {
    let alloc = rt.alloc();
    let theory = make_theory(alloc, 1)?;
    let verdicts = verdicts(alloc, &theory);
    drop(theory);
    assert!(rt;
        matches!(
            verdicts?,
            (Verdict::Instance, Verdict::Shape, Verdict::Shape)
        )
    );
    Ok(())
}
