//! A place in a line in the compact form, from which one piece after another is cut.

ghost use Rattle.std.specs.Prelude.{◌≤◌, IfSome};
ghost use Rattle.ynl_resource.specs.Amounts.{IsSize};
ghost use Rattle.ynl_fields.specs.Reading.{HasClock};

use crate::cutting::cut_number;
use ynl_resource::{Id, Label, MOST_CLOCK, Name, Path, Size};

/// What ends a text.
const QUOTE: &[u8] = b"\"";

/// What is left of a line. Each call cuts a piece from its front, with what stands before it in every such line; where it
/// gives nothing, the line is in another form.
#[derive(Clone, Copy)]
pub struct Cursor<'a> {
    rest: &'a [u8],
}

impl<'a> Cursor<'a> {
    /// The front of a line.
    pub fn new(line: &'a [u8]) -> Cursor<'a> {
        Cursor { rest: line }
    }

    /// Whether the line goes on with these bytes, which are cut then.
    pub fn skips(&mut self, front: &[u8]) -> bool {
        match self.rest.strip_prefix(front) {
            Some(rest) => {
                self.rest = rest;
                true
            }
            None => false,
        }
    }

    /// The byte that stands so far behind the front, if the line is so long.
    pub fn ahead(&self, count: usize) -> Option<u8> {
        self.rest.get(count).copied()
    }

    /// What stands before the next quote. A text with an escape is in no line whose guess is the line.
    pub fn text(&mut self, front: &[u8]) -> Option<&'a str> {
        if !self.skips(front) {
            return None;
        }
        let end = self.rest.iter().position(|b| *b == b'"')?;
        let text = &self.rest[..end];
        self.rest = &self.rest[end + 1..];
        str::from_utf8(text).ok()
    }

    pub fn number(&mut self, front: &[u8]) -> Option<u64> {
        let (number, rest) = cut_number(self.rest, front)?;
        self.rest = rest;
        Some(number)
    }

    /// A number that is at most so large.
    pub fn within(&mut self, front: &[u8], most: u64) -> Option<u64>
        ensures { IfSome result (λ n. n ≤ most) }
    {
        let number = self.number(front)?;
        if number > most {
            return None;
        }
        Some(number)
    }

    /// The same of a number of 32 bits.
    pub fn small(&mut self, front: &[u8], most: u32) -> Option<u32>
        ensures { IfSome result (λ n. n ≤ most) }
    {
        let number = self.within(front, u64::from(most))?;
        Some(number as u32)
    }

    /// The size of so much memory and of the virtual cores that are told here. It stands alone, since that a size is in range
    /// follows from its parts at some length.
    pub fn size(&mut self, front: &[u8], memory: u64) -> Option<Size>
        ensures { IfSome result (λ size. IsSize size) }
    {
        let vcores = self.number(front)?;
        Size::new(memory, vcores)
    }

    pub fn name(&mut self, front: &[u8]) -> Option<Name> {
        if !self.skips(front) {
            return None;
        }
        let name = self.bare_name()?;
        if !self.skips(QUOTE) {
            return None;
        }
        Some(name)
    }

    pub fn path(&mut self, front: &[u8]) -> Option<Path> {
        if !self.skips(front) || !self.skips(b"root") {
            return None;
        }
        let mut path = Path::root();
        for _below in 0..8 {
            if !self.skips(b".") {
                break;
            }
            let name = self.bare_name()?;
            if !path.push(&name) {
                return None;
            }
        }
        if !self.skips(QUOTE) {
            return None;
        }
        Some(path)
    }

    pub fn label(&mut self, front: &[u8]) -> Option<Label> {
        if !self.skips(front) {
            return None;
        }
        let label = self.label_before(b'"')?;
        if !self.skips(QUOTE) {
            return None;
        }
        Some(label)
    }

    pub fn id(&mut self, front: &[u8]) -> Option<Id>
        ensures { IfSome result (λ id. HasClock id) }
    {
        if !self.skips(front) {
            return None;
        }
        let label = self.label_before(b'#')?;
        let clock = self.within(b"#", MOST_CLOCK)?;
        if clock == 0 || !self.skips(QUOTE) {
            return None;
        }
        Some(Id { label, clock })
    }

    /// The name in front, whatever stands behind it.
    fn bare_name(&mut self) -> Option<Name> {
        let Some((name, rest)) = Name::in_front(self.rest) else {
            return None;
        };
        self.rest = rest;
        Some(name)
    }

    /// The label in front of a byte that may be in no name: where that byte stands at once, it is the text of no name.
    fn label_before(&mut self, end: u8) -> Option<Label> {
        if self.ahead(0) == Some(end) {
            return Some(Label::Unlabelled);
        }
        let name = self.bare_name()?;
        Some(Label::Named(name))
    }
}
