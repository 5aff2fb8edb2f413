// Bytes copied into a lent buffer, and bytes cleared.
ghost use Rattle.std.specs.Prelude.{◌≡◌, ◌+◌, ◌≤◌, length, replicate};
ghost use Rattle.laws.specs.Lists.{over};

// Copies all of the source over the target from an index on; the other bytes stay.
pub fn copy_at(target: &mut [u8], at: usize, source: &[u8])
    requires { at + length source.now ≤ length target.old }
    ensures { target.new ≡ over at source.now target.old }
{
    target[at..at + source.len()].copy_from_slice(source);
}

// Sets so many bytes from an index on to 0; the other bytes stay.
pub fn clear_at(target: &mut [u8], at: usize, count: usize)
    requires { at + count ≤ length target.old }
    ensures { target.new ≡ over at (replicate count 0) target.old }
{
    target[at..at + count].fill(0);
}
