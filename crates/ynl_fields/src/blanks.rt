//! Lines that are passed over.

ghost use Rattle.std.specs.Prelude.{◌≡◌};
ghost use Rattle.ynl_fields.specs.Reading.{is_blank};

/// Whether a line is spaces, tabs and carriage returns alone: such a line is passed over.
pub fn is_blank(line: &[u8]) -> bool
    ensures { result ≡ is_blank line.now }
{
    line.iter()
        .all(|b| *b == b' ' || *b == b'\t' || *b == b'\r')
}
