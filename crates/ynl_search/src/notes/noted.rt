//! What is noted of a queue.

ghost use Rattle.std.specs.Prelude.{◌≡◌};
ghost use Rattle.ynl_search.specs.notes.Notes.{nothing_noted, with_more};

use crate::notes::leaves::less_of;
use ynl_resource::Resource;

/// What is noted of a queue on a partition. What is not noted costs a search, and no answer.
#[derive(Clone, Copy)]
pub struct Noted {
    /// A room in which a search found nothing below the queue, if one is noted.
    pub room: Option<Resource>,
    /// What each request below the queue is for at least, in memory and in virtual cores.
    pub least: Resource,
}

impl Noted {
    /// Nothing is known.
    pub fn nothing() -> Noted
        ensures { result ≡ nothing_noted }
    {
        Noted {
            room: None,
            least: Resource {
                memory: 0,
                vcores: 0,
            },
        }
    }

    /// What is left of it where requests may have come below the queue that are for so much at least.
    pub fn with_more(&self, low: &Resource) -> Noted
        ensures { result ≡ with_more low.now self.now }
    {
        Noted {
            room: None,
            least: less_of(self.least, *low),
        }
    }
}
