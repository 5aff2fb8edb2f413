// A logical number of either volume and a disk address, each with a type of its own.

// a block of the public volume, below P
#[derive(Clone, Copy, PartialEq, Eq)]
pub struct PublicNumber(pub u32);

// a block of the hidden volume, below H
#[repr(C)]
#[derive(Clone, Copy, PartialEq, Eq)]
pub struct HiddenNumber(pub u32);

// a block's place on the disk, counted in blocks
#[derive(Clone, Copy, PartialEq, Eq)]
pub struct DiskAddress(pub u32);
