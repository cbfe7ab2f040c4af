// A heap as a document of the machine.
use crate::heap::NodeHeap;
use dom_meaning::{Creation, Document, FaultKind, MoveFault, StepFault};
use dom_terms::limits::NODES;
use dom_terms::{Copied, LimitKind, ProgVar, Store, Text, Value};
use std::alloc::Global;

impl Document for NodeHeap {
    ghost use Rattle.std.specs.Prelude.{◌≡◌, ◌+◌, nat_le, ◌&&◌, refl};
    ghost use Rattle.model_limits.specs.Limits.{identifier_limit, standard_limits};
    ghost use Rattle.model_shapes.specs.Sorts as sorts;
    ghost use Rattle.model_shapes.specs.Shapes.{SameAt};
    ghost use Rattle.model_terms.specs.TermLimits.{unless};
    ghost use Rattle.model_groves.specs.Picks.{next_pick};
    ghost use Rattle.model_groves.specs.Sizes.{greatest_node, greatest_list};

    ghost grove = { λ heap. heap.grove };

    ghost StandsFor = { λ heap trees. SameAt sorts.grove trees heap.grove };

    ghost Keeps = { λ before after. after.grove ≡ before.grove };

    ghost pick = { λ heap. next_pick heap.grove };

    ghost numbers_limit = { λ heap.
        unless (nat_le (1 + greatest_node heap.grove) standard_limits.identifier
        && nat_le (1 + greatest_list heap.grove) standard_limits.identifier) identifier_limit };

    fn node_name(&self, node: u32) -> Result<&Text, FaultKind> {
        self.name(node)
    }

    fn child_nodes(&self, node: u32) -> Result<u32, FaultKind> {
        self.child_list(node)
    }

    fn parent_node(&self, node: u32) -> Result<Option<u32>, FaultKind> {
        self.parent(node)
    }

    fn list_item(&self, list: u32, place: i64) -> Result<Option<u32>, FaultKind> {
        self.item(list, place)
    }

    // what may want memory comes before the node is made
    fn create_node(
        &mut self,
        alloc: Global,
        variable: &ProgVar,
        name: Text,
        store: &mut Store,
    ) -> Result<Creation, StepFault> {
        if self.len() >= NODES {
            return Err(StepFault::Limit(LimitKind::Nodes));
        }
        let Some((node, list)) = self.next_numbers() else {
            return Err(StepFault::Limit(LimitKind::Identifier));
        };
        let variable = variable.copy(alloc)?;
        self.reserve(1)?;
        store.set(variable, Value::Node(node))?;
        match self.create(name) {
            Ok(_numbers) => Ok(Creation::Made { node, list }),
            Err(_refused) => unreachable!(),
        }
    }

    fn insert_child(
        &mut self,
        _alloc: Global,
        parent: u32,
        child: u32,
        next: Option<u32>,
    ) -> Result<(), MoveFault> {
        match self.insert_before(parent, child, next) {
            Ok(()) => Ok(()),
            Err(kind) => Err(MoveFault::Fault(kind)),
        }
    }

    fn remove_child(&mut self, _alloc: Global, parent: u32, child: u32) -> Result<(), MoveFault> {
        match self.remove(parent, child) {
            Ok(()) => Ok(()),
            Err(kind) => Err(MoveFault::Fault(kind)),
        }
    }

    ghost stands = { λ heap root. refl };

    ghost keeps = { λ heap. refl };
}
