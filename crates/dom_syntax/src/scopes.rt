// The names of a theory, and those that may be used in one of its procedures.
ghost use Rattle.std.specs.Prelude.{◌≡◌, List, ◌++◌, map, IfOk, OnOk};
ghost use Rattle.std.specs.Option.{option_map};
ghost use Rattle.model_shapes.specs.Sorts as sorts;
ghost use Rattle.model_commands.specs.CommandParts.{locals_of};
ghost use Rattle.model_commands.specs.Theories as model;
ghost use Rattle.model_commands.specs.Theories.{procedure_named};
ghost use Rattle.model_files.specs.FileFaults.{declared_by};
ghost use Rattle.dom_terms.specs.Sorts.{sort_of, value_sort_of};
ghost use Rattle.dom_terms.specs.Terms.{prog_var_of};
ghost use Rattle.theory_syntax.specs.Commands.{block_of, command_of};
ghost use Rattle.theory_syntax.specs.Theories.{procedure_of, theory_of};
ghost use Rattle.dom_syntax.specs.Tables.{Declaration, Declares};
ghost use Rattle.dom_syntax.specs.Callees.{callee_of, procedure_entry};
ghost use Rattle.dom_syntax.specs.Scopes.{HasNames, IsScope, block_locals, callees_in};
ghost use Rattle.dom_syntax.specs.Scopes.{logic_entry, variable_entry};

use crate::tables::{Declared, Table};
use crate::variable_sets::VariableSet;
use dom_terms::{LogicVar, OutOfMemory, ProgVar, Sort, Text, ValueSort, with};
use std::alloc::Global;
use theory_syntax::{Block, Command, Procedure, Theory};

impl Declared for ValueSort {
    ghost use Rattle.model_shapes.specs.Sorts as sorts;

    ghost Seen = { sorts.ValueSort };

    ghost seen = { value_sort_of };
}

impl Declared for Sort {
    ghost use Rattle.model_shapes.specs.Sorts as sorts;

    ghost Seen = { sorts.Sort };

    ghost seen = { sort_of };
}

impl<'a> Declared for &'a Procedure {
    ghost use Rattle.model_commands.specs.Theories as model;
    ghost use Rattle.dom_syntax.specs.Callees.{callee_of};

    ghost Seen = { model.Procedure };

    ghost seen = { callee_of };
}

/// The names of a theory: each procedure's, with the first of the name, and the logic variables'.
#[derive(Drop)]
pub(crate) struct Names<'a> {
    pub(crate) theory: &'a Theory,
    pub(crate) procedures: Table<'a, &'a Procedure>,
    pub(crate) logic: Table<'a, Sort>,
}

/// The names that may be used in a procedure of a theory.
#[derive(Drop)]
pub(crate) struct Scope<'a> {
    pub(crate) names: &'a Names<'a>,
    pub(crate) procedure: &'a Procedure,
    pub(crate) params: VariableSet<'a>,
    pub(crate) results: VariableSet<'a>,
    pub(crate) variables: Table<'a, ValueSort>,
}

// The procedures by their names.
fn procedure_table<'a>(
    alloc: Global,
    procedures: &'a [Procedure],
) -> Result<Table<'a, &'a Procedure>, OutOfMemory>
    ensures { IfOk result (λ table. Declares callee_of table
        (map procedure_entry (map model.nameless_procedure (map procedure_of procedures.now)))) }
{
    let mut table = Table::new(alloc);
    for procedure in procedures {
        table.declare(procedure.name.as_str(), procedure)?;
    }
    Ok(table)
}

// The logic variables by their names.
fn logic_table<'a>(alloc: Global, variables: &'a [LogicVar]) -> Result<Table<'a, Sort>, OutOfMemory>
    ensures { IfOk result (λ table. Declares sort_of table (map logic_entry variables.now)) }
{
    let mut table = Table::new(alloc);
    for variable in variables {
        table.declare(variable.name.as_str(), variable.sort)?;
    }
    Ok(table)
}

impl<'a> Names<'a> {
    /// The names of the theory.
    pub(crate) fn new(alloc: Global, theory: &'a Theory) -> Result<Names<'a>, OutOfMemory>
        ensures { IfOk result (λ names. HasNames names × (names.theory.now ≡ theory.now)) }
    {
        let (procedures, logic) = with(
            procedure_table(alloc, theory.procedures.as_slice())?,
            logic_table(alloc, theory.logic.as_slice()),
        )?;
        Ok(Names {
            theory,
            procedures,
            logic,
        })
    }

    /// The first procedure of the name.
    #[tactic(auto, using(crate::proofs::ScopeTestLaws::callee_rules))]
    pub(crate) fn callee(&self, name: &Text) -> Option<&'a Procedure>
        requires { HasNames self.now }
        ensures { option_map callee_of result ≡ procedure_named name.now (callees_in self.now) }
    {
        self.procedures.get(name.as_str())
    }
}

// Declares the variables, in order.
fn declare_all<'a>(
    table: &mut Table<'a, ValueSort>,
    variables: &'a [ProgVar],
) -> Result<(), OutOfMemory>
    ensures { OnOk result ((ds : List (Declaration sorts.ValueSort)) → Declares value_sort_of
        table.old ds → Declares value_sort_of table.new
        (ds ++ map variable_entry (map prog_var_of variables.now))) }
{
    for variable in variables {
        table.declare(variable.name.as_str(), variable.sort)?;
    }
    Ok(())
}

// Declares the local variables of the command, in the order of the text.
#[cycle(declare_locals)]
fn declare_locals<'a>(
    table: &mut Table<'a, ValueSort>,
    command: &'a Command,
) -> Result<(), OutOfMemory>
    ensures { OnOk result ((ds : List (Declaration sorts.ValueSort)) → Declares value_sort_of
        table.old ds → Declares value_sort_of table.new
        (ds ++ map variable_entry (locals_of (command_of command.now)))) }
{
    match command {
        Command::Block(block) | Command::While(_, block) => declare_block_locals(table, block),
        Command::If(_, first, second) => {
            declare_block_locals(table, first)?;
            declare_block_locals(table, second)
        }
        Command::Local(variable, block) => {
            table.declare(variable.name.as_str(), variable.sort)?;
            declare_block_locals(table, block)
        }
        _ => Ok(()),
    }
}

#[cycle(declare_locals)]
fn declare_block_locals<'a>(
    table: &mut Table<'a, ValueSort>,
    block: &'a Block,
) -> Result<(), OutOfMemory>
    ensures { OnOk result ((ds : List (Declaration sorts.ValueSort)) → Declares value_sort_of
        table.old ds → Declares value_sort_of table.new
        (ds ++ map variable_entry (block_locals (block_of block.now)))) }
{
    for command in block.as_slice() {
        declare_locals(table, command)?;
    }
    Ok(())
}

// The variables that the procedure declares, by their names.
fn variable_table<'a>(
    alloc: Global,
    procedure: &'a Procedure,
) -> Result<Table<'a, ValueSort>, OutOfMemory>
    ensures { IfOk result (λ table. Declares value_sort_of table
        (map variable_entry (declared_by (procedure_of procedure.now)))) }
{
    let mut table = Table::new(alloc);
    declare_all(&mut table, procedure.params.as_slice())?;
    declare_all(&mut table, procedure.results.as_slice())?;
    declare_locals(&mut table, &procedure.body)?;
    Ok(table)
}

impl<'a> Scope<'a> {
    /// The names in the procedure of the theory.
    pub(crate) fn new(
        alloc: Global,
        names: &'a Names<'a>,
        procedure: &'a Procedure,
    ) -> Result<Scope<'a>, OutOfMemory>
        requires { HasNames names.now }
        ensures { IfOk result (λ scope. IsScope scope × (scope.names.now ≡ names.now)
            × (scope.procedure.now ≡ procedure.now)) }
    {
        let sets = with(
            VariableSet::of(alloc, procedure.params.as_slice())?,
            VariableSet::of(alloc, procedure.results.as_slice()),
        )?;
        let ((params, results), variables) = with(sets, variable_table(alloc, procedure))?;
        Ok(Scope {
            names,
            procedure,
            params,
            results,
            variables,
        })
    }
}
