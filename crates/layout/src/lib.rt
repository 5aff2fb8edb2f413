// Where things stand on a drive (document 01, "The disk"): numbers and addresses, entries, the geometry, its
// refusals, blocks, the levels of a slot, the bitmap and the public map. Every function's answer is an
// equation with a definition of `model`.
#![tactic(auto)]

pub mod numbers; // numbers of both volumes and disk addresses, never taken one for the other
pub mod entries; // entries of four bytes, least byte first
pub mod geometry; // the five numbers of a drive, the areas that they lay out, and their limits
pub mod refusals; // all refusals by their numbers; 1 and 2, of a geometry and a length
pub mod drives; // the door of every call: refusals 1 to 3, or the geometry in the header
pub mod blocks; // whole blocks of a disk, and of other bytes that are lent
pub mod levels; // the address of a slot's block of a level
pub mod bitmap; // the bit of a slot's public block
pub mod public_map; // the entry of a public number
