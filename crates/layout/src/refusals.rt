// The refusals (document 01, "Public numbers and hidden outcomes"; document 02, K1, K3 and K5) by their
// numbers, and the first two: a geometry, and the length of a disk.
ghost use Rattle.std.specs.Prelude.{◌≡◌};
ghost use Rattle.model.specs.Refusals.{size_refusal};
ghost use Rattle.layout.specs.Geometries.{geometry_of};
ghost use Rattle.layout.specs.Refusals.{refusal_number, answer_number};

use crate::geometry::{Geometry, block_count, is_geometry};

// What a call is refused for.
#[derive(Clone, Copy, PartialEq, Eq)]
pub enum Refusal {
    Geometry = 1, // no header, or numbers outside the limits
    Length = 2, // the disk has not the bytes of its geometry
    Head = 3, // the head is no slot
    PublicNumber = 4, // a public number past the last
    PublicSize = 5, // public data or a blank of another size than a block
    MapEntry = 6, // a map entry that is no allocated slot's public block
    NoFreeSlot = 7, // no slot is free
    RandomBytes = 8, // too few random bytes
    ListRoom = 9, // too little room in the list
    HiddenNumber = 10, // a hidden number past the last
    // hidden data or a blank of another size than a block, or not among the lent blocks
    HiddenSize = 11,
    DamagedWalk = 12, // the walk meets an ill-formed entry
    IllFormed = 13, // an entry of the tree is ill formed
    PastHidden = 14, // an entry of the tree has no hidden number below it
    WrongOwner = 15, // an entry of the tree leads to a slot that is not its owner's
    LineFull = 16, // the line, or what is lent of it, is full
    MapEntries = 17, // a map entry is no slot's start, or two numbers share one
}

// The documents' number of a refusal.
pub fn refusal_number(refusal: Refusal) -> u8
    ensures { result ≡ refusal_number refusal }
{
    refusal as u8
}

// What a call answers as a number: 0, or that of its refusal.
pub fn answer_number(told: Result<(), Refusal>) -> u8
    ensures { result ≡ answer_number told }
{
    match told {
        Ok(()) => 0,
        Err(refusal) => refusal_number(refusal),
    }
}

// 1 or 2 of so many bytes for a geometry.
pub fn check_size(len: usize, g: Geometry) -> Result<(), Refusal>
    ensures { answer_number result ≡ size_refusal len (geometry_of g) }
{
    if len < 24 {
        return Err(Refusal::Geometry);
    }
    if !is_geometry(g) {
        return Err(Refusal::Geometry);
    }
    if len as u64 == block_count(g) * (g.block_size as u64) {
        Ok(())
    } else {
        Err(Refusal::Length)
    }
}
