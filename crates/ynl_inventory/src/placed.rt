//! Containers as the model has them.

ghost use Rattle.std.specs.Prelude.{◌≡◌, IfSome, IsSome};
ghost use Rattle.ynl_inventory.specs.Meaning.{label_at, placed_of, what_of};
ghost use Rattle.ynl_inventory.specs.Sound.{IsAskedThere};
ghost use Rattle.ynl_inventory.specs.Parts.{held_at, IsHeldIn};

use crate::inventory::Inventory;
use ynl_model::{Placed, What};
use ynl_resource::Id;
use ynl_tables::containers::{Container, Role};

impl Inventory {
    /// The container under a number in a partition, as the model has it.
    pub fn placed(&self, p: u8, number: u32) -> Placed
        requires { IsSome (held_at self.now.rows p number) }
        ensures { IfSome (held_at self.now.rows p number) (λ c.
            result ≡ placed_of self.now.rows (label_at self.now.rows.partitions p) c) }
    {
        let held = self.container(p, number);
        self.told(p, &held)
    }

    /// A container that is held in a partition, as the model has it.
    pub fn told(&self, p: u8, held: &Container) -> Placed
        requires { IsHeldIn self.now.rows p held.now }
        ensures { result ≡ placed_of self.now.rows
            (label_at self.now.rows.partitions p) held.now }
    {
        // Opens the rows, which are sound.
        let _ = self.partition_count();
        let node = self.node(held.node);
        let app = self.app(held.app);
        let label = self.label(p);
        Placed {
            id: Id {
                label: *label,
                clock: held.clock,
            },
            node: node.name,
            tenant: self.tenant_name(app.tenant),
            app: *self.app_name(held.app),
            what: self.what(held.role),
            size: held.size,
        }
    }

    /// What a container is to its application, as the model has it.
    pub fn what(&self, role: Role) -> What
        requires { IsAskedThere self.now.rows role }
        ensures { result ≡ what_of self.now.rows.partitions role }
    {
        match role {
            Role::Master => What::Master,
            Role::Ask {
                partition,
                priority,
            } => What::Ask(*self.label(partition), priority),
        }
    }
}
