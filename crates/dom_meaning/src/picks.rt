// The numbers that a new node is given.
ghost use Rattle.std.specs.Prelude.{◌≡◌};
ghost use Rattle.model_groves.specs.Picks as model;
ghost use Rattle.grove_data.specs.Trees.{forest_of};
ghost use Rattle.dom_meaning.specs.Configs.{pick_of};

use grove_data::{Grove, has_list, has_node};

/// Whether both numbers are positive and not in use.
pub(crate) fn is_free(pick: (u32, u32), grove: &Grove) -> bool
    ensures { result ≡ model.is_free (pick_of pick) (forest_of grove.now) }
{
    let (node, list) = pick;
    (node > 0 && list > 0) && (!has_node(grove, node) && !has_list(grove, list))
}
