//! The limits of the notation.

/// The greatest number of bytes of a collection, and of any other file that the program reads.
pub const MAX_FILE: usize = 16_777_216;
