//! What crosses to C: an entry of a change, and which reply a line is.
//!
//! clients/c/proved.h has the same structs, and clients/c/codec.h, `specs/Crossing` and `lib.rt` the numbers of
//! `kind`: change them together.
/// One word's part in a change.
#[repr(C)]
#[derive(Clone, Copy, Drop)]
pub struct LineEntry {
    /// The word's address.
    pub address: u16,
    /// The value that the word must have.
    pub expected: u64,
    /// The value that the change writes.
    pub value: u64,
}

/// Which reply a line is.
#[repr(C)]
#[derive(Clone, Copy, Drop)]
pub struct LineReply {
    /// 0 for none; 1 OK and the number of words, 2 `OK ADMIN`, 3 BYE, 4 ERR and its number; 5 VAL and the value, 6 YES, 7 NO with
    /// an address and the value there, 8 BUSY, 9 FAULT, 10 WORN.
    pub kind: u8,
    /// Of kind 7, else 0.
    pub address: u16,
    /// Of kinds 1, 4, 5 and 7, else 0.
    pub number: u64,
}
