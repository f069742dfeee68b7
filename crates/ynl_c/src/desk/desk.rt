//! A desk: opening its cluster, telling it a line, listing containers, and copying the text of what came of it.

ghost use Rattle.std.specs.Prelude.{◌≡◌, Ok, IfSome, IfNone, IfErr, OnOk};
ghost use Rattle.ynl_resource.specs.Texts.{read_label};
ghost use Rattle.ynl_c.specs.desk.Standing.{standing, no_cluster, opening_of};
ghost use Rattle.ynl_c.specs.desk.Calls.{Opens, Tells, Lists, IsNoLabel, Copies};

use crate::desk::copying::put_front;
use crate::desk::faults::DeskFault;
use crate::desk::outcome::{Outcome, put_outcome};
use crate::desk::taking::take;
use std::alloc::Global;
use std::str;
use ynl_config::read_config;
use ynl_core::{Core, NoMemory};
use ynl_lines::EventReader;
use ynl_model::{Items, Placed, Reply};
use ynl_queues::Config;
use ynl_resource::{HashSeed, Label};

/// A cluster that takes lines, once it is opened, and what the last call came to. Memory is kept from line to line.
pub struct Desk {
    core: Option<Core>,
    /// How many lines were told since the cluster was opened.
    lines: u64,
    events: EventReader,
    /// What the last heartbeat placed.
    placed: Vec<Placed>,
    outcome: Outcome,
    /// Where texts are made.
    text: Vec<u8>,
}

// By hand, so that crates above call it: one that is derived is proved anew in each of them, with all that it holds.
impl Drop for Desk {
    fn drop(self) {
        let Desk {
            core: _,
            lines: _,
            events: _,
            placed: _,
            outcome: _,
            text: _,
        } = self;
    }
}

/// The label that bytes are.
#[tactic(auto, unfolding(crate::specs::desk::Calls::IsNoLabel))]
fn label_of(bytes: &[u8]) -> Option<Label>
    ensures label { IfSome result (λ label. read_label bytes.now ≡ Ok label) }
    ensures none { IfNone result (IsNoLabel bytes.now) }
{
    let Ok(text) = str::from_utf8(bytes) else {
        return None;
    };
    match Label::parse(text) {
        Ok(label) => Some(label),
        Err(_) => None,
    }
}

impl Desk {
    /// A desk without a cluster.
    pub fn new(alloc: Global) -> Desk
        ensures { standing result ≡ no_cluster }
    {
        Desk {
            core: None,
            lines: 0,
            events: EventReader::new(alloc),
            placed: Vec::new(alloc),
            outcome: Outcome::Silent,
            text: Vec::new(alloc),
        }
    }

    /// Opens a cluster of a configuration.
    fn begin(&mut self, alloc: Global, config: Config) -> Result<(), DeskFault>
        ensures ok { OnOk result (standing self.new ≡ opening_of config) }
        ensures err { IfErr result (λ e. (e ≡ DeskFault.NoMemory) × (standing self.new ≡ standing self.old)) }
    {
        match Core::open(alloc, config) {
            Ok(core) => {
                self.core = Some(core);
                self.lines = 0;
                self.outcome = Outcome::Silent;
                Ok(())
            }
            Err(NoMemory) => Err(DeskFault::NoMemory),
        }
    }

    /// Opens a cluster of the configuration that a text means, from its opening state, in which names are hashed with the
    /// seed. A cluster that was there is let go then; it stays where the text is no configuration or memory is refused.
    #[tactic(auto, unfolding(crate::specs::desk::Calls::IsOpened, crate::specs::desk::Calls::TellsConfigFault))]
    pub fn open(&mut self, alloc: Global, seed: HashSeed, text: &[u8]) -> Result<(), DeskFault>
        ensures { Opens (standing self.old) (standing self.new) text.now result }
    {
        match read_config(alloc, text) {
            Ok(Ok(config)) => self.begin(alloc, config.with_seed(seed)),
            Ok(Err(fault)) => {
                self.outcome = Outcome::Config(fault);
                Err(DeskFault::Config(fault))
            }
            Err(_) => Err(DeskFault::NoMemory),
        }
    }

    /// Takes the event that a line is, without its newline. Where memory is refused nothing is taken.
    #[tactic(auto, unfolding(crate::specs::desk::Calls::TakesLine, crate::specs::desk::Calls::TellsLineFault, crate::specs::desk::Calls::next_line))]
    pub fn tell(&mut self, alloc: Global, line: &[u8]) -> Result<(), DeskFault>
        ensures { Tells (standing self.old) (standing self.new) line.now result }
    {
        let Some(core) = &mut self.core else {
            return Err(DeskFault::Closed);
        };
        match take(
            alloc,
            core,
            &mut self.events,
            line,
            &mut self.placed,
            &mut self.outcome,
        ) {
            Ok(None) => {
                self.lines = self.lines.saturating_add(1);
                Ok(())
            }
            Ok(Some(fault)) => {
                self.lines = self.lines.saturating_add(1);
                self.outcome = Outcome::Line(fault, self.lines);
                Err(DeskFault::Line(fault))
            }
            Err(NoMemory) => {
                self.outcome = Outcome::Silent;
                Err(DeskFault::NoMemory)
            }
        }
    }

    /// Lists the containers of the partition of a label, as the reply to a heartbeat lists those that it placed.
    #[tactic(auto, unfolding(crate::specs::desk::Calls::Listed))]
    pub fn list(&mut self, alloc: Global, label: &[u8]) -> Result<(), DeskFault>
        ensures { Lists (standing self.old) (standing self.new) label.now result }
    {
        let Some(core) = &self.core else {
            return Err(DeskFault::Closed);
        };
        let Some(label) = label_of(label) else {
            return Err(DeskFault::Label);
        };
        match core.containers(alloc, &label) {
            Ok(containers) => {
                self.outcome = Outcome::Reply(Reply::Placed(Items::new(containers)));
                Ok(())
            }
            Err(NoMemory) => Err(DeskFault::NoMemory),
        }
    }

    /// Puts the text of what the last call came to at the front of a block, and says how long it is. It can be copied
    /// again, so a block that was too small costs nothing.
    pub fn copy(
        &mut self,
        alloc: Global,
        block: &mut [u8],
        length: &mut usize,
    ) -> Result<(), DeskFault>
        ensures { Copies (standing self.old) (standing self.new) block.old block.new length.new result }
    {
        match put_outcome(alloc, &self.outcome, &self.placed, &mut self.text) {
            Ok(()) => {}
            Err(_) => return Err(DeskFault::NoMemory),
        }
        *length = self.text.len();
        if block.len() < self.text.len() {
            return Err(DeskFault::NoRoom);
        }
        put_front(block, &self.text);
        Ok(())
    }
}
