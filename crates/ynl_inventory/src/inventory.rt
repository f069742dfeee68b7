//! What a cluster holds.

ghost use Rattle.std.specs.Prelude.{◌≡◌, ◌<◌, ◌≤◌, nat_eq, length, map, slice_get, option_map, Some, None, nat_le, false, true, IfOk, IsOk, OnOk, OnErr, IfSome, IsSome};
ghost use Rattle.std.specs.Map.{lookup};
ghost use Rattle.ynl_slots.specs.Slots.{number_in, without, IsAfter, IsLive, IsUnused};
ghost use Rattle.ynl_tables.specs.apps.Chains.{chain_of};
ghost use Rattle.ynl_inventory.specs.Changes.{partition_of_node, with_placed, with_ended, with_joined, with_dropped, with_node_gone, with_submitted, with_asked, with_tickets, with_app_gone, with_user_known, with_clock, with_stamp, with_stood};
ghost use Rattle.ynl_model.specs.Nodes.{rises};
ghost use Rattle.ynl_tables.specs.containers.Chains.{IsFirst, IsNext};
ghost use Rattle.ynl_tables.specs.containers.Table.{number_at};
ghost use Rattle.ynl_tables.specs.submissions.Submissions.{turn_of};
ghost use Rattle.ynl_inventory.specs.Meaning.{app_name, app_number, label_at, node_number, submitted_to, tenant_name};
ghost use Rattle.ynl_inventory.specs.layout.Paths.{HasNumber};
ghost use Rattle.ynl_inventory.specs.Opening.{opening_rows, IsOpening};
ghost use Rattle.ynl_inventory.specs.Apps.{runs_at, master_of};
ghost use Rattle.ynl_inventory.specs.Sound.{CanAsk, CanShow, CanSubmit, HasPartition, HasNoContainers, OwnsNoContainers, IsFor, IsSound};
ghost use Rattle.ynl_inventory.specs.Parts.{app_row, node_row, placed_on, CanPlace, CanStand, IsFitting, LeavesRoom, free_of, held_at, containers_of};

use crate::changes::{freed, owned, released, taken, used};
use crate::layout::Layout;
use crate::partition::{Partition, Placement, risen};
use crate::places::{reserve_for_ask, reserve_place};
use crate::start::{no_submissions, partitions_of};
use crate::submission::{NewSubmission, new_row};
use std::alloc::{AllocError, Global};
use std::marker::Model;
use ynl_queues::Config;
use ynl_resource::{Label, Name, Resource, Size};
use ynl_slots::Chain;
use ynl_tables::apps::{AppRow, Apps, Ask, Tickets};
use ynl_tables::containers::Container;
use ynl_tables::nodes::{NodeRow, Nodes};
use ynl_tables::submissions::Submissions;
use ynl_tables::users::Users;

/// What a cluster holds under numbers. A partition's number is its place, DEFAULT first; a tenant's is that of its top-level
/// queue. A contract sees the rows.
pub struct Inventory {
    layout: Layout,
    partitions: Vec<Partition>,
    nodes: Nodes,
    apps: Apps,
    tenants: Vec<Submissions>,
    users: Users,
}

// By hand, so that crates above call it: one that is derived is proved anew in each of them, with
// all that it holds.
impl Drop for Inventory {
    fn drop(self) {
        let Inventory {
            layout: _,
            partitions: _,
            nodes: _,
            apps: _,
            tenants: _,
            users: _,
        } = self;
    }
}

impl Model for Inventory {
    ghost use Rattle.ynl_inventory.specs.Parts.{Held, held_of, IsInventory};

    ghost Value = { Held };

    ghost view = { held_of };

    ghost invariant = { IsInventory };
}

impl Inventory {
    /// The cluster of a configuration before any event. It fails if memory is refused.
    pub fn new(alloc: Global, config: &Config) -> Result<Inventory, AllocError>
        ensures rows { IfOk result (λ inventory. inventory.rows ≡ opening_rows config.now) }
        ensures config { IfOk result (λ inventory. IsFor config.now inventory.rows) }
        ensures state { IfOk result (λ inventory. IsOpening config.now inventory.rows) }
    {
        let draft = config.draft();
        let seed = config.seed();
        let partitions = partitions_of(alloc, draft.labels())?;
        let tenants = no_submissions(alloc, draft.queues().len() + 1, seed)?;
        let layout = Layout::new(alloc, config)?;
        // Opens the layout, whose paths are a tree.
        let _ = layout.len();
        Ok(Inventory {
            layout,
            partitions,
            nodes: Nodes::new(alloc, seed),
            apps: Apps::new(alloc),
            tenants,
            users: Users::new(alloc),
        })
    }

    /// A container is placed on a node. It returns the container's number in the node's partition. It takes no memory.
    pub fn place(&mut self, placed: &Placement) -> u32
        requires { CanPlace self.old placed.now }
        ensures rows { self.new.rows ≡ with_placed result
            placed.now.node placed.now.app placed.now.role placed.now.size self.old.rows }
        ensures unused { IsUnused result (containers_of self.old.rows
            (partition_of_node self.old.rows.nodes placed.now.node)) }
        ensures rooms { LeavesRoom (partition_of_node self.old.rows.nodes placed.now.node) 1
            self.old.rooms self.new.rooms }
        ensures ready { self.new.ready ≡ self.old.ready }
    {
        let row = &self.nodes[placed.node];
        let p = row.partition;
        let mut of_node = row.containers;
        let mut of_app = chain_in(&self.apps, placed.app, p);
        let part = &mut self.partitions[p as usize];
        let number = part.place(placed, &mut of_node, &mut of_app);
        let clock = part.clock;
        used(&mut self.nodes, placed.node, of_node, clock, placed.size);
        taken(&mut self.apps, placed, p, of_app, number);
        number
    }

    /// A container stands on a node as one that was placed at this clock: no clock rises, no stamp changes, and no less
    /// is asked for. It returns the container's number in the node's partition. All memory is taken first: it fails if
    /// that is refused, and where `Containers::reserve` does.
    pub fn stand(&mut self, placed: &Placement, clock: u64) -> Result<u32, AllocError>
        requires { CanStand self.old.rows placed.now clock }
        ensures rows { IfOk result (λ number. self.new.rows ≡ with_stood
            (partition_of_node self.old.rows.nodes placed.now.node) number
            (placed_on placed.now clock) self.old.rows) }
        ensures unused { IfOk result (λ number. IsUnused number (containers_of self.old.rows
            (partition_of_node self.old.rows.nodes placed.now.node))) }
        ensures ready { self.new.ready ≡ self.old.ready }
        ensures err { OnErr result (self.new.rows ≡ self.old.rows) }
    {
        let row = &self.nodes[placed.node];
        let p = row.partition;
        let stamp = row.stamp;
        let mut of_node = row.containers;
        reserve_place(&mut self.apps, placed.app, p)?;
        let mut of_app = chain_in(&self.apps, placed.app, p);
        let part = &mut self.partitions[p as usize];
        part.reserve(1)?;
        let number = part.hold(placed, clock, &mut of_node, &mut of_app);
        used(&mut self.nodes, placed.node, of_node, stamp, placed.size);
        owned(&mut self.apps, placed, p, of_app, number);
        Ok(number)
    }

    /// Sets the clock of a partition. It takes no memory.
    pub fn set_clock(&mut self, p: u8, clock: u64)
        requires there { HasPartition self.old.rows p }
        requires can { CanShow self.old.rows p clock }
        ensures { self.new ≡ record self.old { rows = with_clock p clock self.old.rows } }
    {
        let part = &mut self.partitions[p as usize];
        part.clock = clock;
    }

    /// Sets the stamp of a node. It takes no memory.
    pub fn set_stamp(&mut self, node: u32, stamp: u64)
        requires { IsLive node self.old.rows.nodes }
        ensures { self.new ≡ record self.old { rows = with_stamp node stamp self.old.rows } }
    {
        self.nodes.set_stamp(node, stamp);
    }

    /// Reserves room for so many more containers in a partition, as a heartbeat may place. It fails if memory is refused, and
    /// where `Containers::reserve` does.
    pub fn reserve_for(&mut self, p: u8, count: u32) -> Result<(), AllocError>
        requires { HasPartition self.old.rows p }
        ensures rows { self.new.rows ≡ self.old.rows }
        ensures ok { OnOk result (IfSome (slice_get self.new.rooms p) (λ room. count ≤ room)) }
        ensures rooms { LeavesRoom p 0 self.old.rooms self.new.rooms }
        ensures ready { self.new.ready ≡ self.old.ready }
    {
        let part = &mut self.partitions[p as usize];
        part.reserve(count)
    }

    /// A node of a new name joins a partition, with all of it free. It returns the node's number. It fails where
    /// `Nodes::join` does.
    pub fn join(&mut self, name: &Name, p: u8, size: Size) -> Result<u32, AllocError>
        requires partition { HasPartition self.old.rows p }
        requires new { node_number name.now self.old.rows.nodes ≡ None }
        ensures ok { IfOk result (λ n. self.new ≡ record self.old {
          rows = with_joined n name.now p size self.old.rows;
        }) }
        ensures unused { IfOk result (λ n. IsUnused n self.old.rows.nodes) }
        ensures err { OnErr result (self.new ≡ self.old) }
    {
        // Opens the size, which is small.
        let _amount = size.amount();
        let clock = next_clock(&self.partitions, p);
        let number = self.nodes.join(name, p, size, clock)?;
        let part = &mut self.partitions[p as usize];
        part.clock = clock;
        Ok(number)
    }

    /// Reserves room for a node that joins again. It fails where `Nodes::reserve_one` does.
    pub fn reserve_node(&mut self) -> Result<(), AllocError>
        ensures ok { OnOk result (self.new ≡ record self.old { ready = true }) }
        ensures err { OnErr result (self.new ≡ self.old) }
    {
        self.nodes.reserve_one()
    }

    /// A node without containers leaves, and joins a partition under its own name and size. It
    /// returns the node's new number. It takes no memory.
    pub fn rejoin(&mut self, node: u32, p: u8) -> u32
        requires live { IsLive node self.old.rows.nodes }
        requires empty { HasNoContainers self.old.rows node }
        requires partition { HasPartition self.old.rows p }
        requires ready { self.old.ready ≡ true }
        ensures rows { IfSome (lookup (nat_eq node) self.old.rows.nodes) (λ row. self.new
            ≡ record self.old {
              rows = with_joined result row.name p row.size (with_node_gone node self.old.rows);
              ready = false;
            }) }
        ensures unused { IsUnused result (without node self.old.rows.nodes) }
    {
        // Opens the nodes, no two of which have one name.
        let _ = self.nodes.len();
        let size = self.nodes[node].size;
        // Opens the size, which is small.
        let _amount = size.amount();
        let clock = next_clock(&self.partitions, p);
        let number = self.nodes.rejoin(node, p, clock);
        let part = &mut self.partitions[p as usize];
        part.clock = clock;
        number
    }

    /// A node without containers leaves. It takes no memory.
    pub fn leave(&mut self, node: u32)
        requires live { IsLive node self.old.rows.nodes }
        requires empty { HasNoContainers self.old.rows node }
        ensures { self.new ≡ record self.old { rows = with_node_gone node self.old.rows } }
    {
        let _row = self.nodes.leave(node);
    }

    /// The container under a number in a partition ends. It takes no memory.
    pub fn end(&mut self, p: u8, number: u32) -> Container
        requires { IsSome (held_at self.old.rows p number) }
        ensures value { held_at self.old.rows p number ≡ Some result }
        ensures rows { self.new.rows ≡ with_ended p number result.node self.old.rows }
        ensures rooms { LeavesRoom p 0 self.old.rooms self.new.rooms }
        ensures ready { self.new.ready ≡ self.old.ready }
    {
        let held = container_in(&self.partitions, p, number);
        let row = &self.nodes[held.node];
        let mut of_node = row.containers;
        let mut of_app = chain_in(&self.apps, held.app, p);
        let part = &mut self.partitions[p as usize];
        let _held = part.end(number, &mut of_node, &mut of_app);
        let clock = part.clock;
        freed(&mut self.nodes, &held, of_node, clock);
        released(&mut self.apps, &held, p, of_app);
        held
    }

    /// The container under a number in a partition goes with its node: no clock rises, and no stamp changes. It takes no memory.
    pub fn discard(&mut self, p: u8, number: u32) -> Container
        requires { IsSome (held_at self.old.rows p number) }
        ensures value { held_at self.old.rows p number ≡ Some result }
        ensures rows { self.new.rows ≡ with_dropped p number self.old.rows }
        ensures rooms { LeavesRoom p 0 self.old.rooms self.new.rooms }
        ensures ready { self.new.ready ≡ self.old.ready }
    {
        let held = container_in(&self.partitions, p, number);
        let row = &self.nodes[held.node];
        let mut of_node = row.containers;
        let stamp = row.stamp;
        let mut of_app = chain_in(&self.apps, held.app, p);
        let part = &mut self.partitions[p as usize];
        let _held = part.discard(number, &mut of_node, &mut of_app);
        freed(&mut self.nodes, &held, of_node, stamp);
        released(&mut self.apps, &held, p, of_app);
        held
    }

    /// The number of the user of a name, a new one if there is none. It fails where `Users::add`
    /// does.
    pub fn user(&mut self, name: &Name) -> Result<u32, AllocError>
        ensures ok { OnOk result (self.new ≡ record self.old {
          rows = with_user_known name.now self.old.rows;
        }) }
        ensures own { IfOk result (λ user. slice_get self.new.rows.users user ≡ Some name.now) }
        ensures err { OnErr result (self.new ≡ self.old) }
    {
        if let Some(user) = self.users.find(name) {
            return Ok(user);
        }
        let user = self.users.add(name)?;
        Ok(user)
    }

    /// An application is submitted. It returns the application's number. All memory is taken
    /// first: it fails if that is refused, and where `Apps::reserve_one` and
    /// `Submissions::reserve_one` do.
    pub fn submit(&mut self, name: &Name, new: &NewSubmission) -> Result<u32, AllocError>
        requires { CanSubmit self.old.rows name.now new.now }
        ensures rows { IfOk result (λ app. self.new.rows ≡ with_submitted app name.now
            new.now.tenant new.now.leaf new.now.user new.now.home new.now.master_size
            self.old.rows) }
        ensures unused { IfOk result (λ app. IsUnused app self.old.rows.apps) }
        ensures rooms { self.new.rooms ≡ self.old.rooms }
        ensures ready { self.new.ready ≡ self.old.ready }
        ensures err { OnErr result (self.new.rows ≡ self.old.rows) }
    {
        let alloc = *self.tenants.allocator();
        let turn = next_turn(&self.tenants, new.tenant);
        let row = new_row(alloc, new, turn)?;
        self.apps.reserve_one()?;
        let submissions = &mut self.tenants[new.tenant as usize];
        submissions.reserve_one()?;
        let app = self.apps.add(row);
        let _turn = submissions.submit(name, new.leaf, app);
        Ok(app)
    }

    /// An application asks: an ask takes the place of the one of its partition and priority, or
    /// comes last; with count 0 that one goes. It fails if memory is refused, and takes none for
    /// count 0.
    pub fn ask(&mut self, app: u32, ask: Ask) -> Result<(), AllocError>
        requires { CanAsk self.old.rows app ask }
        ensures ok { OnOk result (self.new.rows ≡ with_asked app ask self.old.rows) }
        ensures err { OnErr result (self.new.rows ≡ self.old.rows) }
        ensures rooms { self.new.rooms ≡ self.old.rooms }
        ensures ready { self.new.ready ≡ self.old.ready }
        ensures no_count { ask.count ≡ 0 → IsOk result }
    {
        reserve_for_ask(&mut self.apps, &self.partitions, app, &ask)?;
        self.apps.set_ask(app, ask)?;
        Ok(())
    }

    /// Sets an application's tickets.
    pub fn set_tickets(&mut self, app: u32, tickets: Tickets)
        requires { IsLive app self.old.rows.apps }
        ensures { self.new ≡ record self.old { rows = with_tickets app tickets self.old.rows } }
    {
        self.apps.set_tickets(app, tickets);
    }

    /// An application without containers is live no more. Its name stays. It takes no memory.
    pub fn finish(&mut self, app: u32)
        requires live { IsLive app self.old.rows.apps }
        requires empty { OwnsNoContainers self.old.rows app }
        ensures rows { IfSome (lookup (nat_eq app) self.old.rows.apps)
            (λ row. self.new.rows ≡ with_app_gone app row.tenant row.turn self.old.rows) }
        ensures rooms { self.new.rooms ≡ self.old.rooms }
        ensures ready { self.new.ready ≡ self.old.ready }
    {
        let row = self.apps.remove(app);
        let submissions = &mut self.tenants[row.tenant as usize];
        submissions.finish(row.turn);
    }

    /// The node under a number.
    pub fn node(&self, number: u32) -> &NodeRow
        requires { IsLive number self.now.rows.nodes }
        ensures { lookup (nat_eq number) self.now.rows.nodes ≡ Some (node_row result.now) }
    {
        &self.nodes[number]
    }

    /// The node that joined first, if there is one.
    pub fn first_node(&self) -> Option<u32>
        ensures { result ≡ number_in self.now.rows.nodes 0 }
    {
        self.nodes.first()
    }

    /// The node that joined next after one, if there is one.
    pub fn next_node(&self, number: u32) -> Option<u32>
        requires { IsLive number self.now.rows.nodes }
        ensures { IsAfter number self.now.rows.nodes result }
    {
        self.nodes.next(number)
    }

    /// What is free of a node: what its containers leave.
    pub fn free(&self, node: u32) -> Resource
        requires { IsLive node self.now.rows.nodes }
        ensures { result ≡ free_of self.now.rows node }
    {
        let row = &self.nodes[node];
        row.free
    }

    /// The number of the node of a name, if there is one.
    pub fn find_node(&self, name: &Name) -> Option<u32>
        ensures { result ≡ node_number name.now self.now.rows.nodes }
    {
        self.nodes.find(name)
    }

    /// The application under a number.
    pub fn app(&self, number: u32) -> &AppRow
        requires { IsLive number self.now.rows.apps }
        ensures { lookup (nat_eq number) self.now.rows.apps ≡ Some (app_row result.now) }
    {
        &self.apps[number]
    }

    /// The live application under a number, if there is one.
    pub fn live_app(&self, number: u32) -> Option<&AppRow>
        ensures { option_map (λ row. app_row row.now) result ≡ lookup (nat_eq number) self.now.rows.apps }
    {
        self.apps.get(number)
    }

    /// Whether a live application runs: its master is placed.
    pub fn runs(&self, app: u32) -> bool
        requires { IsLive app self.now.rows.apps }
        ensures { IfSome (lookup (nat_eq app) self.now.rows.apps)
            (λ row. result ≡ runs_at self.now.rows app row) }
    {
        let row = &self.apps[app];
        row.master.get().is_some()
    }

    /// The number of a live application's master in its home partition, if it runs.
    pub fn master(&self, app: u32) -> Option<u32>
        requires { IsLive app self.now.rows.apps }
        ensures { IfSome (lookup (nat_eq app) self.now.rows.apps)
            (λ row. result ≡ master_of self.now.rows app row) }
    {
        let row = &self.apps[app];
        row.master.get()
    }

    /// The container under a number in a partition.
    pub fn container(&self, p: u8, number: u32) -> Container
        requires { IsSome (held_at self.now.rows p number) }
        ensures { held_at self.now.rows p number ≡ Some result }
    {
        container_in(&self.partitions, p, number)
    }

    /// The containers of a partition, in the order of placement. It fails if memory is refused.
    pub fn containers(&self, alloc: Global, p: u8) -> Result<Vec<Container>, AllocError>
        requires { HasPartition self.now.rows p }
        ensures { IfOk result (λ list.
            list.items ≡ map (λ e. e.1) (containers_of self.now.rows p)) }
    {
        let part = &self.partitions[p as usize];
        part.containers.copies(alloc)
    }

    /// The container of a partition that was placed first, if there is one.
    pub fn first_container(&self, p: u8) -> Option<u32>
        requires { HasPartition self.now.rows p }
        ensures { result ≡ number_in (containers_of self.now.rows p) 0 }
    {
        let part = &self.partitions[p as usize];
        part.containers.first()
    }

    /// The container of a partition that was placed next after one, if there is one.
    pub fn next_container(&self, p: u8, number: u32) -> Option<u32>
        requires partition { HasPartition self.now.rows p }
        requires live { IsLive number (containers_of self.now.rows p) }
        ensures { IsAfter number (containers_of self.now.rows p) result }
    {
        let part = &self.partitions[p as usize];
        part.containers.next(number)
    }

    /// The queues under numbers.
    pub fn layout(&self) -> &Layout
        ensures { result.now ≡ self.now.rows.paths }
    {
        &self.layout
    }

    /// How many partitions there are, DEFAULT among them.
    pub fn partition_count(&self) -> usize
        ensures count { result ≡ length self.now.rows.partitions }
        ensures rooms { length self.now.rooms ≡ length self.now.rows.partitions }
        ensures sound { IsSound self.now.rows }
        ensures fitting { IsFitting self.now.rows }
    {
        self.partitions.len()
    }

    /// The label of a partition.
    pub fn label(&self, p: u8) -> &Label
        requires { HasPartition self.now.rows p }
        ensures { result.now ≡ label_at self.now.rows.partitions p }
    {
        let part = &self.partitions[p as usize];
        &part.label
    }

    /// Whether a partition takes guests.
    pub fn takes_guests(&self, p: u8) -> bool
        requires { HasPartition self.now.rows p }
        ensures { IfSome (slice_get self.now.rows.partitions p) (λ row. result ≡ row.guests) }
    {
        let part = &self.partitions[p as usize];
        part.guests
    }

    /// What the clock of a partition shows.
    pub fn clock(&self, p: u8) -> u64
        requires { HasPartition self.now.rows p }
        ensures { IfSome (slice_get self.now.rows.partitions p) (λ row. result ≡ row.clock) }
    {
        let part = &self.partitions[p as usize];
        part.clock
    }

    /// Whether the clock of a partition stands at its limit.
    pub fn is_spent(&self, p: u8) -> bool
        requires { HasPartition self.now.rows p }
        ensures { IfSome (slice_get self.now.rows.partitions p)
            (λ row. result ≡ nat_le row.limit row.clock) }
    {
        let part = &self.partitions[p as usize];
        part.limit <= part.clock
    }

    /// The number of the container of a partition and a clock, if there is one.
    pub fn find_container(&self, p: u8, clock: u64) -> Option<u32>
        requires { HasPartition self.now.rows p }
        ensures { IfSome (slice_get self.now.rows.partitions p)
            (λ row. result ≡ number_at clock row.containers) }
    {
        let part = &self.partitions[p as usize];
        part.containers.find(clock)
    }

    /// The applications that were ever submitted to a tenant, in the order of submission.
    pub fn submissions(&self, tenant: u32) -> &Submissions
        requires { tenant < length self.now.rows.tenants }
        ensures { result.now.entries ≡ submitted_to self.now.rows.tenants tenant }
    {
        &self.tenants[tenant as usize]
    }

    /// The turn of a tenant's application of a name, if one was submitted.
    pub fn find_turn(&self, tenant: u32, name: &Name) -> Option<u32>
        requires { tenant < length self.now.rows.tenants }
        ensures { result ≡ turn_of name.now (submitted_to self.now.rows.tenants tenant) }
    {
        let submissions = &self.tenants[tenant as usize];
        submissions.find(name)
    }

    /// The name of a tenant.
    pub fn tenant_name(&self, tenant: u32) -> Name
        requires below_root { 0 < tenant }
        requires there { HasNumber self.now.rows.paths tenant }
        ensures { result ≡ tenant_name self.now.rows.paths tenant }
    {
        self.layout.name(tenant as usize)
    }

    /// The number of the live application of a tenant and a name, if there is one.
    pub fn find_app(&self, tenant: u32, name: &Name) -> Option<u32>
        requires { tenant < length self.now.rows.tenants }
        ensures { result ≡ app_number name.now (submitted_to self.now.rows.tenants tenant) }
    {
        let submissions = &self.tenants[tenant as usize];
        let turn = submissions.find(name)?;
        submissions[turn].app
    }

    /// The name of a live application.
    pub fn app_name(&self, app: u32) -> &Name
        requires { IsLive app self.now.rows.apps }
        ensures { IfSome (lookup (nat_eq app) self.now.rows.apps)
            (λ row. result.now ≡ app_name self.now.rows.tenants row.tenant row.turn) }
    {
        let row = &self.apps[app];
        let submissions = &self.tenants[row.tenant as usize];
        submissions.name(row.turn)
    }

    /// The name of a user.
    pub fn user_name(&self, user: u32) -> &Name
        requires { user < length self.now.rows.users }
        ensures { slice_get self.now.rows.users user ≡ Some result.now }
    {
        self.users.name(user)
    }

    /// The first container of a node, in the order of placement, if there is one.
    pub fn first_of_node(&self, node: u32) -> Option<u32>
        requires { IsLive node self.now.rows.nodes }
        ensures { IsFirst (λ c. c.node) node
            (containers_of self.now.rows (partition_of_node self.now.rows.nodes node)) result }
    {
        let row = &self.nodes[node];
        let part = &self.partitions[row.partition as usize];
        part.containers.first_of_node(&row.containers)
    }

    /// The first container of an application in a partition, in the order of placement, if there is one.
    pub fn first_of_app(&self, app: u32, p: u8) -> Option<u32>
        requires app { IsLive app self.now.rows.apps }
        requires partition { HasPartition self.now.rows p }
        ensures { IsFirst (λ c. c.app) app (containers_of self.now.rows p) result }
    {
        let chain = chain_in(&self.apps, app, p);
        let part = &self.partitions[p as usize];
        part.containers.first_of_app(&chain)
    }

    /// The next container of the same node, in the order of placement, if there is one.
    pub fn next_of_node(&self, p: u8, number: u32) -> Option<u32>
        requires { IsSome (held_at self.now.rows p number) }
        ensures { IfSome (held_at self.now.rows p number) (λ c.
            IsNext (λ x. x.node) c.node (containers_of self.now.rows p) number result) }
    {
        let part = &self.partitions[p as usize];
        part.containers.next_of_node(number)
    }

    /// The next container of the same application in the same partition, in the order of placement, if there is one.
    pub fn next_of_app(&self, p: u8, number: u32) -> Option<u32>
        requires { IsSome (held_at self.now.rows p number) }
        ensures { IfSome (held_at self.now.rows p number) (λ c.
            IsNext (λ x. x.app) c.app (containers_of self.now.rows p) number result) }
    {
        let part = &self.partitions[p as usize];
        part.containers.next_of_app(number)
    }
}

/// The turn of the next application of a tenant.
fn next_turn(tenants: &[Submissions], tenant: u32) -> u32
    requires { tenant < length tenants.now }
    ensures { IfSome (slice_get tenants.now tenant)
        (λ listing. result ≡ length listing.entries) }
{
    let submissions = &tenants[tenant as usize];
    submissions.next_turn()
}

/// What the clock of a partition shows after one more change.
fn next_clock(partitions: &[Partition], p: u8) -> u64
    requires { p < length partitions.now }
    ensures { IfSome (slice_get partitions.now p) (λ part. result ≡ rises part.limit part.clock) }
{
    let part = &partitions[p as usize];
    risen(part.clock, part.limit)
}

/// The container under a number in a partition.
fn container_in(partitions: &[Partition], p: u8, number: u32) -> Container
    requires live { IfSome (slice_get partitions.now p)
        (λ part. IsLive number part.containers.entries) }
    requires part { p < length partitions.now }
    ensures { IfSome (slice_get partitions.now p)
        (λ part. lookup (nat_eq number) part.containers.entries ≡ Some result) }
{
    let part = &partitions[p as usize];
    part.containers[number]
}

/// The chain of an application's containers in a partition.
fn chain_in(apps: &Apps, app: u32, p: u8) -> Chain
    requires { IsLive app apps.now.entries }
    ensures { IfSome (lookup (nat_eq app) apps.now.entries)
        (λ row. result ≡ chain_of p row.chains) }
{
    let row = &apps[app];
    row.chains.get(p)
}
