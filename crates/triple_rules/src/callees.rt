// The procedures that a call may enter, by their names.
ghost use Rattle.std.specs.Prelude.{◌≡◌, IfOk, MatchOption, Some, None, map};
ghost use Rattle.model_files.specs.Sizes.{ProcedureIsSmall, ProceduresAreSmall};
ghost use Rattle.model_commands.specs.Theories.{nameless_procedure, procedure_named};
ghost use Rattle.theory_syntax.specs.Theories.{procedure_of};
ghost use Rattle.triple_rules.specs.Callees.{AreReady, Tells};
ghost use Rattle.triple_rules.specs.Procedures.{procedures_in};

use dom_terms::{OutOfMemory, Text, same_text};
use name_table::NameTable;
use std::alloc::Global;
use theory_syntax::Procedure;

/// The procedures of a theory, as calls find them by their names.
#[derive(Clone, Copy)]
pub struct Callees<'p, 'n> {
    /// The procedures, in order.
    pub procedures: &'p [Procedure],
    /// The first procedure of each name. Without this table the procedures are walked at each call,
    /// which takes less time than making the table for one call alone.
    pub names: Option<&'n NameTable<'p, &'p Procedure>>,
}

// The first procedure of the name.
fn find_named<'a>(name: &Text, procedures: &'a [Procedure]) -> Option<&'a Procedure>
    requires { ProceduresAreSmall (map procedure_of procedures.now) }
    ensures { MatchOption result
        (procedure_named name.now (procedures_in procedures.now) ≡ None)
        (λ f. (procedure_named name.now (procedures_in procedures.now)
        ≡ Some (nameless_procedure (procedure_of f.now)))
        × ProcedureIsSmall (procedure_of f.now)) }
{
    for procedure in procedures {
        if same_text(name, &procedure.name) {
            return Some(procedure);
        }
    }
    None
}

impl<'p, 'n> Callees<'p, 'n> {
    /// The procedure that the name means.
    pub(crate) fn meant(self, name: &Text) -> Option<&'p Procedure>
        requires { AreReady self }
        ensures { MatchOption result
            (procedure_named name.now (procedures_in self.entry.procedures.now) ≡ None)
            (λ f. (procedure_named name.now (procedures_in self.entry.procedures.now)
            ≡ Some (nameless_procedure (procedure_of f.now)))
            × ProcedureIsSmall (procedure_of f.now)) }
    {
        match self.names {
            Some(names) => names.get(name.as_str()),
            None => find_named(name, self.procedures),
        }
    }
}

/// The first procedure of each name, in a table.
pub fn first_by_name<'a>(
    alloc: Global,
    procedures: &'a [Procedure],
) -> Result<NameTable<'a, &'a Procedure>, OutOfMemory>
    ensures { IfOk result (λ names. Tells names procedures.now) }
{
    let mut names = NameTable::new(alloc);
    let mut place = procedures.len();
    // From the last on, since what is put later for a name stands in place of what it had.
    while place > 0 {
        place -= 1;
        names.insert(procedures[place].name.as_str(), &procedures[place])?;
    }
    Ok(names)
}
