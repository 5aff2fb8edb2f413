// One change of a block, or none.
ghost use Rattle.std.specs.Prelude.{◌≡◌, length};
ghost use Rattle.stores.specs.Changes.{changed, Inside};

// What is changed: nothing, the entry at an index, or the bit at a place.
#[derive(Clone, Copy)]
pub enum Change {
    Nothing,
    Entry(usize, u32),
    Bit(u16, bool),
}

// Makes the change in a block; its other bytes stay.
pub fn change_block(block: &mut [u8], change: Change)
    requires { Inside (length block.old) change }
    ensures { block.new ≡ changed change block.old }
{
    match change {
        Change::Nothing => {}
        Change::Entry(index, value) => layout::entries::put_entry(block, index, value),
        Change::Bit(place, is_set) => layout::bitmap::set_bit(block, place, is_set),
    }
}
