//! The statuses that the program ends with.

/// The command was carried out, and all that it asks for was sent.
pub const DONE: u8 = 0;

/// The words are no command that is offered.
pub const BAD_WORDS: u8 = 2;

/// The input has a place where no frame or no item stands.
pub const BAD_INPUT: u8 = 3;

/// The source failed.
pub const READ_FAULT: u8 = 4;

/// The sink failed.
pub const WRITE_FAULT: u8 = 5;

/// A disk could not be opened, its bytes are damaged, or a run may not begin with what the disks hold.
pub const DISK_FAULT: u8 = 6;

/// A limit is passed.
pub const TOO_MANY: u8 = 7;

/// The checked history is not legal.
pub const UNLAWFUL: u8 = 8;

/// Memory ran out.
pub const OUT_OF_MEMORY: u8 = 9;
