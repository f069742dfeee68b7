//! A place in what is kept, from which one field after another is read.

ghost use Rattle.std.specs.Prelude.{◌≡◌, length, IfSome};
ghost use Rattle.ynl_packed.specs.Reading.{Gives, front_at, kind_at, small_at, number_at, text_of, name_at, label_at, long_at, path_at, size_at, amount_at, id_at, what_at, proposal_at};

use ynl_model::{Proposal, What};
use ynl_resource::{Id, Label, Name, Path, Resource, Size};

/// What is left of the bytes. Each call reads a field from its front; where it gives nothing, no such field stands there.
#[derive(Clone, Copy)]
pub(crate) struct Cursor<'a> {
    rest: &'a [u8],
}

impl<'a> Cursor<'a> {
    /// The front of the bytes.
    pub(crate) fn new(bytes: &'a [u8]) -> Cursor<'a>
        ensures { result.rest.now ≡ bytes.now }
    {
        Cursor { rest: bytes }
    }

    /// So many bytes.
    #[tactic(auto, unfolding(crate::specs::Reading::front_at))]
    fn front(&mut self, n: usize) -> Option<&'a [u8]>
        ensures gives { Gives (λ x. (x.now, self.new.rest.now)) result (front_at n self.old.rest.now) }
        ensures len { IfSome result (λ x. length x.now ≡ n) }
    {
        if self.rest.len() < n {
            return None;
        }
        let (front, rest) = self.rest.split_at(n);
        self.rest = rest;
        Some(front)
    }

    #[tactic(auto, unfolding(crate::specs::Reading::small_at))]
    pub(crate) fn small(&mut self) -> Option<u32>
        ensures { Gives (λ x. (x, self.new.rest.now)) result (small_at self.old.rest.now) }
    {
        let b = self.front(4)?;
        Some(u32::from_be_bytes([b[0], b[1], b[2], b[3]]))
    }

    #[tactic(auto, unfolding(crate::specs::Reading::number_at))]
    pub(crate) fn number(&mut self) -> Option<u64>
        ensures { Gives (λ x. (x, self.new.rest.now)) result (number_at self.old.rest.now) }
    {
        let b = self.front(8)?;
        Some(u64::from_be_bytes([b[0], b[1], b[2], b[3], b[4], b[5], b[6], b[7]]))
    }

    /// A text of this length.
    #[tactic(auto, using(crate::proofs::FieldsAgain::utf8_yes, crate::proofs::FieldsAgain::utf8_no), unfolding(crate::specs::Reading::text_of))]
    fn text_of(&mut self, len: usize) -> Option<&'a str>
        ensures { Gives (λ x. (x.now, self.new.rest.now)) result (text_of len self.old.rest.now) }
    {
        let front = self.front(len)?;
        match str::from_utf8(front) {
            Ok(text) => Some(text),
            Err(_) => None,
        }
    }

    /// A byte.
    #[tactic(auto, unfolding(crate::specs::Reading::kind_at))]
    pub(crate) fn kind(&mut self) -> Option<u8>
        ensures { Gives (λ x. (x, self.new.rest.now)) result (kind_at self.old.rest.now) }
    {
        let (kind, rest) = self.rest.split_first()?;
        self.rest = rest;
        Some(*kind)
    }

    pub(crate) fn name(&mut self) -> Option<Name>
        ensures { Gives (λ x. (x, self.new.rest.now)) result (name_at self.old.rest.now) }
    {
        let Some(len) = self.kind() else {
            return None;
        };
        let Some(front) = self.front(len as usize) else {
            return None;
        };
        match Name::of_bytes(front) {
            Ok(name) => Some(name),
            Err(_) => None,
        }
    }

    #[tactic(auto, unfolding(crate::specs::Reading::label_at))]
    pub(crate) fn label(&mut self) -> Option<Label>
        ensures { Gives (λ x. (x, self.new.rest.now)) result (label_at self.old.rest.now) }
    {
        if let [0, rest @ ..] = self.rest {
            self.rest = rest;
            return Some(Label::Unlabelled);
        }
        let name = self.name()?;
        Some(Label::Named(name))
    }

    #[tactic(auto, unfolding(crate::specs::Reading::long_at))]
    pub(crate) fn long(&mut self) -> Option<&'a str>
        ensures { Gives (λ x. (x.now, self.new.rest.now)) result (long_at self.old.rest.now) }
    {
        let len = self.number()?;
        self.text_of(len as usize)
    }

    #[tactic(auto, unfolding(crate::specs::Reading::path_at))]
    pub(crate) fn path(&mut self) -> Option<Path>
        ensures { Gives (λ x. (x, self.new.rest.now)) result (path_at self.old.rest.now) }
    {
        let text = self.long()?;
        Path::parse(text).ok()
    }

    #[tactic(auto, unfolding(crate::specs::Reading::size_at))]
    pub(crate) fn size(&mut self) -> Option<Size>
        ensures { Gives (λ x. (x, self.new.rest.now)) result (size_at self.old.rest.now) }
    {
        let memory = self.small()?;
        let vcores = self.small()?;
        Size::new(u64::from(memory), u64::from(vcores))
    }

    #[tactic(auto, unfolding(crate::specs::Reading::amount_at))]
    pub(crate) fn amount(&mut self) -> Option<Resource>
        ensures { Gives (λ x. (x, self.new.rest.now)) result (amount_at self.old.rest.now) }
    {
        let memory = self.number()?;
        let vcores = self.number()?;
        Some(Resource { memory, vcores })
    }

    #[tactic(auto, unfolding(crate::specs::Reading::id_at))]
    pub(crate) fn id(&mut self) -> Option<Id>
        ensures { Gives (λ x. (x, self.new.rest.now)) result (id_at self.old.rest.now) }
    {
        let label = self.label()?;
        let clock = self.number()?;
        Some(Id { label, clock })
    }

    #[tactic(auto, unfolding(crate::specs::Reading::what_at))]
    pub(crate) fn what(&mut self) -> Option<What>
        ensures { Gives (λ x. (x, self.new.rest.now)) result (what_at self.old.rest.now) }
    {
        match self.kind()? {
            0 => Some(What::Master),
            _ => {
                let label = self.label()?;
                let priority = self.small()?;
                Some(What::Ask(label, priority))
            }
        }
    }

    #[tactic(auto, unfolding(crate::specs::Reading::proposal_at))]
    pub(crate) fn proposal(&mut self) -> Option<Proposal>
        ensures { Gives (λ x. (x, self.new.rest.now)) result (proposal_at self.old.rest.now) }
    {
        let node = self.name()?;
        let stamp = self.number()?;
        let tenant = self.name()?;
        let app = self.name()?;
        let what = self.what()?;
        let size = self.size()?;
        Some(Proposal {
            node,
            stamp,
            tenant,
            app,
            what,
            size,
        })
    }
}
