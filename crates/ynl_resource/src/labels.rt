//! Labels of nodes and of requests.

ghost use Rattle.std.specs.Prelude.{◌≡◌, Ok};
ghost use Rattle.ynl_resource.specs.Texts.{read_label, label_text};

use crate::names::{BadName, Name};
use std::fmt;

/// A label, which names a partition of the nodes: none, for the DEFAULT partition, or a name.
#[derive(Clone, Copy, PartialEq, Eq, PartialOrd, Ord)]
pub enum Label {
    Unlabelled,
    Named(Name),
}

impl Label {
    /// The label that the text is; the empty text is DEFAULT.
    #[tactic(auto, unfolding(crate::specs::Texts::read_label))]
    pub fn parse(text: &str) -> Result<Label, BadName>
        ensures { result ≡ read_label text.now }
    {
        if text.is_empty() {
            return Ok(Label::Unlabelled);
        }
        let name = Name::parse(text)?;
        Ok(Label::Named(name))
    }

    /// The label's text, which is empty for DEFAULT.
    #[tactic(auto, unfolding(crate::specs::Texts::read_label, crate::specs::Texts::read_name))]
    pub fn as_str(&self) -> &str
        ensures text { result.now ≡ label_text self.now }
        ensures reads { read_label result.now ≡ Ok self.now }
    {
        match self {
            Label::Unlabelled => "",
            Label::Named(name) => name.as_str(),
        }
    }
}

impl fmt::Display for Label {
    ghost use Rattle.std.specs.Prelude.{Some};
    ghost use Rattle.ynl_resource.specs.Texts.{label_text};

    ghost output = { λ l. Some (label_text l) };

    fn fmt<W: fmt::Write>(&self, f: &mut fmt::Formatter<W>) -> fmt::Result {
        let text = self.as_str();
        write!(f, "{text}")
    }
}
