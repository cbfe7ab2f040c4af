// Configurations: what is pending, the store, the grove and the results.
ghost use Rattle.std.specs.Prelude.{◌≡◌, IfOk, map};
ghost use Rattle.dom_terms.specs.Terms.{prog_var_of};

use dom_terms::{Copied, List, MadeOf, OutOfMemory, ProgVar, Store, Value, Vars};
use grove_data::Grove;
use std::alloc::Global;
use theory_syntax::Command;

/// The pieces that are pending, the first one last.
pub type Pieces = List<Pending>;

/// A piece that is pending.
#[derive(Debug, Drop)]
pub enum Pending {
    /// A command.
    Run(Command),
    /// A variable to be given back its old value.
    Restore(ProgVar, Value),
    /// The caller's store to be given back, with the callee's results in the variables that take
    /// them.
    Return(Store, Vars, Vars),
}

/// What is pending, the store and the grove, and the result variables of the procedure that was
/// started.
#[derive(Debug, Drop)]
pub struct Config {
    /// The pending pieces, the first one last.
    pub pending: Pieces,
    /// What the variables hold.
    pub store: Store,
    /// The grove.
    pub grove: Grove,
    /// The result variables, which no step changes.
    pub results: Vars,
}

impl Copied for Pending {
    ghost use Rattle.model_machine.specs.Machine as model;
    ghost use Rattle.dom_meaning.specs.Configs.{piece_of};

    ghost Seen = { model.Piece };

    ghost seen = { piece_of };

    fn copy(&self, alloc: Global) -> Result<Pending, OutOfMemory>
        ensures { IfOk result (λ copied. piece_of copied ≡ piece_of self.now) }
    {
        match self {
            Self::Run(command) => Ok(Self::Run(command.copy(alloc)?)),
            Self::Restore(variable, value) => {
                Ok(Self::Restore(variable.copy(alloc)?, value.copy(alloc)?))
            }
            Self::Return(caller, results, variables) => {
                let caller = caller.copy(alloc)?;
                let results = results.copy(alloc)?;
                Ok(Self::Return(caller, results, variables.copy(alloc)?))
            }
        }
    }
}

impl MadeOf<Command> for Pending {
    ghost use Rattle.dom_meaning.specs.declared.configurations.Pending.TheVariants.{Run};

    ghost make = { Run };

    fn made(command: Command) -> Pending
        ensures { result ≡ Run command }
    {
        Self::Run(command)
    }
}

impl Copied for Config {
    ghost use Rattle.std.specs.Prelude.{List};
    ghost use Rattle.model_terms.specs.Stores as stores;
    ghost use Rattle.model_machine.specs.Machine as model;
    ghost use Rattle.dom_meaning.specs.Configs.{config_of};

    ghost Seen = { model.Config × List stores.ProgVar };

    ghost seen = { λ config. (config_of config, map prog_var_of config.results) };

    fn copy(&self, alloc: Global) -> Result<Config, OutOfMemory>
        ensures config { IfOk result (λ copied. config_of copied ≡ config_of self.now) }
        ensures results { IfOk result (λ copied.
            map prog_var_of copied.results ≡ map prog_var_of self.now.results) }
    {
        let pending = self.pending.copy(alloc)?;
        let store = self.store.copy(alloc)?;
        let grove = self.grove.copy(alloc)?;
        Ok(Config {
            pending,
            store,
            grove,
            results: self.results.copy(alloc)?,
        })
    }
}
