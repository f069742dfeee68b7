//! What an application asks for.

ghost use Rattle.std.specs.Prelude.{◌≡◌, ◌==◌, ◌&&◌, ◌++◌, ◌∷◌, [], IsSome, IsOk, OnOk, OnErr, option_copied, if◌then◌else◌};
ghost use Rattle.std.specs.List.{position_or_len};
ghost use Rattle.ynl_resource.specs.Tables.{without, update};
ghost use Rattle.ynl_tables.specs.apps.Asks.{is_ask_of, is_spent, lowered, find_ask, with_ask, with_one_taken, AreAsks};

use std::alloc::{AllocError, Global};
use std::marker::Model;
use ynl_resource::Size;

/// What an application asks for: how many containers of a size, on a partition and at a priority. It has the number of
/// a partition where `AskRow` of the model has its label.
#[derive(Clone, Copy)]
pub struct Ask {
    pub partition: u8,
    pub priority: u32,
    pub count: u32,
    pub size: Size,
}

/// What an application asks for, in the order in which it was first set. No two asks are of one partition and
/// priority, and none is for no container. A contract sees the list of the asks.
#[derive(Drop)]
pub struct Asks {
    rows: Vec<Ask>,
}

impl Model for Asks {
    ghost use Rattle.std.specs.Prelude.{List};
    ghost use Rattle.ynl_tables.specs.declared.apps.asks.Ask.{Ask};
    ghost use Rattle.ynl_tables.specs.apps.Asks.{AreAsks};

    ghost Value = { List Ask };

    ghost view = { λ a. a.rows.items };

    ghost invariant = { λ a. AreAsks a.rows.items };
}

impl Ask {
    fn is_of(&self, partition: u8, priority: u32) -> bool
        ensures { result ≡ is_ask_of partition priority self.now }
    {
        self.partition == partition && self.priority == priority
    }
}

impl Asks {
    /// No asks. It takes no memory.
    pub fn new(alloc: Global) -> Asks
        ensures { result ≡ [] }
    {
        Asks {
            rows: Vec::new(alloc),
        }
    }

    /// The asks in their order.
    pub fn as_slice(&self) -> &[Ask]
        ensures value { result.now ≡ self.now }
        ensures asks { AreAsks self.now }
    {
        self.rows.as_slice()
    }

    /// The ask of a partition and a priority, if there is one.
    pub fn find(&self, partition: u8, priority: u32) -> Option<&Ask>
        ensures { option_copied result ≡ find_ask partition priority self.now }
    {
        let place = place_of(&self.rows, partition, priority);
        self.rows.get(place)
    }

    /// The ask takes the place of the one of its partition and priority, or comes last; with count 0 that one goes. It
    /// takes memory only for a new ask, and fails if that is refused.
    pub fn set(&mut self, ask: Ask) -> Result<(), AllocError>
        ensures ok { OnOk result (self.new ≡ with_ask ask self.old) }
        ensures err { OnErr result (self.new ≡ self.old) }
        ensures no_count { ask.count ≡ 0 → IsOk result }
        ensures there { IsSome (find_ask ask.partition ask.priority self.old) → IsOk result }
    {
        if ask.count == 0 {
            drop_ask(&mut self.rows, ask.partition, ask.priority);
            return Ok(());
        }
        let place = place_of(&self.rows, ask.partition, ask.priority);
        if place < self.rows.len() {
            self.rows[place] = ask;
            return Ok(());
        }
        push_ask(&mut self.rows, ask)?;
        Ok(())
    }

    /// One container of the ask of a partition and a priority was placed: its count falls by 1, and at 0 it goes. It
    /// takes no memory.
    pub fn take_one(&mut self, partition: u8, priority: u32)
        ensures { self.new ≡ with_one_taken partition priority self.old }
    {
        if lower(&mut self.rows, partition, priority) {
            drop_ask(&mut self.rows, partition, priority);
        }
    }
}

/// Where the ask of a partition and a priority is, or else how many there are.
fn place_of(asks: &[Ask], partition: u8, priority: u32) -> usize
    ensures { result ≡ position_or_len (is_ask_of partition priority) asks.now }
{
    for i in 0..asks.len() {
        if asks[i].is_of(partition, priority) {
            return i;
        }
    }
    asks.len()
}

/// The ask comes last. Most applications have one, so the first takes no room for more.
fn push_ask(asks: &mut Vec<Ask>, ask: Ask) -> Result<(), AllocError>
    ensures ok { OnOk result (asks.new.items ≡ asks.old.items ++ ask ∷ []) }
    ensures err { OnErr result (asks.new.items ≡ asks.old.items) }
{
    if asks.is_empty() {
        asks.reserve_exact(1)?;
    }
    asks.push(ask)?;
    Ok(())
}

fn drop_ask(asks: &mut Vec<Ask>, partition: u8, priority: u32)
    ensures { asks.new.items ≡ without (is_ask_of partition priority) asks.old.items }
{
    asks.retain(|ask| !ask.is_of(partition, priority));
}

/// The count of the ask of a partition and a priority falls by 1. It tells whether that is for no container now.
fn lower(asks: &mut Vec<Ask>, partition: u8, priority: u32) -> bool
    requires { AreAsks asks.old.items }
    ensures asks { asks.new.items ≡ update (is_ask_of partition priority) lowered asks.old.items }
    ensures spent { without (is_spent partition priority) asks.new.items ≡ (if result
        then without (is_ask_of partition priority) asks.new.items else asks.new.items) }
{
    let place = place_of(asks, partition, priority);
    if place >= asks.len() {
        return false;
    }
    let before = asks[place];
    let count = before.count.saturating_sub(1);
    let mut ask = before;
    ask.count = count;
    asks[place] = ask;
    count == 0
}
