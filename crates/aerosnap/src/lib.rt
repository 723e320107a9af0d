// AEROSNAP files: what a file is, how it is read, its content and its canonical form, the tables and the edits.
// The crate has no code but two bounds and the names of a list and of a new device: what it says is defined in specs/ and proved in proofs/.
#![tactic(auto)]

// A file has so many sections at most.
pub const SECTIONS_MOST: usize = 64;

// The payload of DEVICES has so many bytes at most.
pub const DEVICES_MOST: usize = 268435456;

// The two lists of a file that edits change.
#[derive(Clone, Copy)]
pub enum Side {
    OfDevices,
    OfDisks,
}

// One new device of a table: its key, and where its payload lies in the second buffer. In C's layout it takes 24 bytes.
#[repr(C)]
#[derive(Clone, Copy)]
pub struct NewDevice {
    pub id: u32,
    pub version: u16,
    pub flags: u16,
    pub place: u64,
    pub length: u64,
}
