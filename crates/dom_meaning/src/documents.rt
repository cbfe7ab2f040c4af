// What the commands that look at nodes work on.
ghost use Rattle.std.specs.Prelude.{◌≡◌, Option};
ghost use Rattle.model_limits.specs.Limits.{LimitKind};
ghost use Rattle.model_shapes.specs.Sorts.{node_sort};
ghost use Rattle.model_shapes.specs.Trees.{Trees, WellFormed};
ghost use Rattle.model_shapes.specs.Values.{node_number, list_number, str, int};
ghost use Rattle.model_terms.specs.Stores as stores;
ghost use Rattle.model_groves.specs.Groves.{node_at, list_at, nodes_where, parental};
ghost use Rattle.model_groves.specs.Groves.{first_number, item_of};
ghost use Rattle.model_groves.specs.Picks.{Pick};
ghost use Rattle.model_machine.specs.Machine.{no_node, no_list, creating, removing, inserting_at};
ghost use Rattle.grove_data.specs.Finding.{number_or_null};
ghost use Rattle.dom_terms.specs.Sorts.{value_sort_of};
ghost use Rattle.dom_terms.specs.Terms.{prog_var_of};
ghost use Rattle.dom_terms.specs.Stores.{store_of};
ghost use Rattle.dom_meaning.specs.Documents.{Reads, Moves, Makes, Kept, if_not_made, making_limit};
ghost use Rattle.dom_meaning.specs.Faults.{TellsLimit};

use crate::faults::{Creation, FaultKind, MoveFault, StepFault};
use dom_terms::{ProgVar, Store, Text};
use std::alloc::Global;

/// A document, whose nodes commands read, make and move, each as the machine does.
pub trait Document: Sized {
    // the grove that it stands for, in an order of the roots of its own
    ghost grove: { Self → Trees };

    // it stands for these trees
    ghost StandsFor: { Self → Trees → Type 0 };

    // it stands for the same trees in the same order, and its next numbers are the same
    ghost Keeps: { Self → Self → Type 0 };

    // the numbers that a new node is given
    ghost pick: { Self → Pick };

    // the limit that these numbers pass
    ghost numbers_limit: { Self → Option LimitKind };

    /// The name of the node. Faults exactly where there is no such node.
    fn node_name(&self, node: u32) -> Result<&Text, FaultKind>
        requires { WellFormed (grove self.now) }
        ensures { Reads (λ name. str name.now) (node_at (node_number node) (grove self.now)) no_node
            (λ name number kids list. str name) result };

    /// The number of the children list of the node. Faults exactly where there is no such node.
    fn child_nodes(&self, node: u32) -> Result<u32, FaultKind>
        requires { WellFormed (grove self.now) }
        ensures { Reads list_number (node_at (node_number node) (grove self.now)) no_node
            (λ name number kids list. list_number list) result };

    /// The number of the parent of the node: none where it is a root. Faults exactly where there is
    /// no such node.
    fn parent_node(&self, node: u32) -> Result<Option<u32>, FaultKind>
        requires { WellFormed (grove self.now) }
        ensures { Reads number_or_null (node_at (node_number node) (grove self.now)) no_node
            (λ name number kids list. first_number (nodes_where (parental number)
            (grove self.now))) result };

    /// The number of the child at the place, counted from 0, in the children list: none where there
    /// is none. Faults exactly where there is no such list.
    fn list_item(&self, list: u32, place: i64) -> Result<Option<u32>, FaultKind>
        requires { WellFormed (grove self.now) }
        ensures { Reads number_or_null (list_at (list_number list) (grove self.now)) no_list
            (λ name number kids list. item_of (int place) kids) result };

    /// Adds a root with the name and no children, and sets the variable to its number. Nodes comes
    /// exactly where there are as many as there may be, and else the limit of the numbers. After
    /// every answer but the numbers of a new node, document and store are as they were.
    fn create_node(
        &mut self,
        alloc: Global,
        variable: &ProgVar,
        name: Text,
        store: &mut Store,
    ) -> Result<Creation, StepFault>
        requires { value_sort_of variable.now.sort ≡ node_sort }
        ensures makes { Makes (StandsFor self.new) (creating (pick self.old)
            (prog_var_of variable.now) name (store_of store.old) (grove self.old)) (pick self.old)
            (store_of store.new) result }
        ensures kept { Kept if_not_made Keeps result (store.new ≡ store.old) self.old self.new }
        ensures limit { TellsLimit result
            (making_limit (grove self.old) (numbers_limit self.old)) };

    /// Moves the child, wherever it is, with all below it to just before the next, a child of the
    /// parent, or to the end of the children of the parent where no next is given; or faults, as
    /// the machine does.
    fn insert_child(
        &mut self,
        alloc: Global,
        parent: u32,
        child: u32,
        next: Option<u32>,
    ) -> Result<(), MoveFault>
        requires { WellFormed (grove self.old) }
        ensures { (store : stores.Store) → Moves StandsFor Keeps
            (inserting_at (number_or_null next) (node_at (node_number parent) (grove self.old))
            (node_at (node_number child) (grove self.old)) store (grove self.old))
            store result self.old self.new };

    /// Moves the child of the parent with all below it to the roots, or faults, as the machine
    /// does.
    fn remove_child(&mut self, alloc: Global, parent: u32, child: u32) -> Result<(), MoveFault>
        requires { WellFormed (grove self.old) }
        ensures { (store : stores.Store) → Moves StandsFor Keeps
            (removing (node_at (node_number parent) (grove self.old))
            (node_at (node_number child) (grove self.old)) store (grove self.old))
            store result self.old self.new };

    ghost stands: { (document : Self) → StandsFor document (grove document) };

    ghost keeps: { (document : Self) → Keeps document document };
}
