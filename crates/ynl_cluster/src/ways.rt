//! Ways to queues.

ghost use Rattle.std.specs.Prelude.{◌∷◌};
ghost use Rattle.ynl_resource.specs.Names.{root};
ghost use Rattle.ynl_laws.specs.Ways.{IsWay};
ghost use Rattle.ynl_inventory.specs.layout.Paths.{is_above, HasNumber, IsLine, IsTree};

use ynl_inventory::layout::Layout;

/// The numbers of the queues on the way to a queue, itself among them and root not.
pub(crate) fn way_to(layout: &Layout, queue: usize) -> &[usize]
    requires tree { IsTree layout.now }
    requires there { HasNumber layout.now queue }
    ensures line { IsLine layout.now queue (0 ∷ result.now) }
    ensures way { IsWay (root ∷ layout.now) (is_above layout.now queue) (0 ∷ result.now) }
{
    let line = layout.line(queue);
    &line[1..]
}
