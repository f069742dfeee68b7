//! Texts that are copied into a block of the caller's.

ghost use Rattle.std.specs.Prelude.{◌≡◌, ◌≤◌, ◌++◌, length, drop};

/// Puts a text at the front of a block that has room for it.
pub fn put_front(block: &mut [u8], text: &[u8])
    requires { length text.now ≤ length block.old }
    ensures { block.new ≡ text.now ++ drop (length text.now) block.old }
{
    let (front, _) = block.split_at_mut(text.len());
    front.copy_from_slice(text);
}
