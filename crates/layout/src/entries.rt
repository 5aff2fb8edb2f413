// Entries: four bytes, least byte first.
ghost use Rattle.std.specs.Prelude.{◌≡◌, ◌+◌, ◌*◌, ◌≤◌, length};
ghost use Rattle.model.specs.Blocks.{entry_at, set_entry};

// The number that four bytes spell.
fn number_of(first: u8, second: u8, third: u8, fourth: u8) -> u32
    ensures { result ≡ first + 256 * (second + 256 * (third + 256 * fourth)) }
{
    first as u32 + 256 * (second as u32 + 256 * (third as u32 + 256 * (fourth as u32)))
}

// The entry at an index, counted in entries.
pub fn entry_at(bytes: &[u8], index: usize) -> u32
    requires { 4 * index + 4 ≤ length bytes.now }
    ensures { result ≡ entry_at index bytes.now }
{
    let at = 4 * index;
    number_of(bytes[at], bytes[at + 1], bytes[at + 2], bytes[at + 3])
}

// Puts a value into the entry at an index; the other bytes stay.
pub fn put_entry(bytes: &mut [u8], index: usize, value: u32)
    requires { 4 * index + 4 ≤ length bytes.old }
    ensures { bytes.new ≡ set_entry index value bytes.old }
{
    let at = 4 * index;
    bytes[at] = (value % 256) as u8;
    bytes[at + 1] = (value / 256 % 256) as u8;
    bytes[at + 2] = (value / 256 / 256 % 256) as u8;
    bytes[at + 3] = (value / 256 / 256 / 256 % 256) as u8;
}
