//! The exit statuses of the program.

/// What was asked for was done, or the run ended SUCCESS.
pub const SUCCEEDED: u8 = 0;

/// The words are no command.
pub const NO_COMMAND: u8 = 2;

/// The flow file can't be read.
pub const UNREAD: u8 = 3;

/// The flow file gives no plan to run.
pub const REFUSED: u8 = 4;

/// The disk failed.
pub const DISK_FAILED: u8 = 5;

/// The file is no book, or no board.
pub const NO_BOOK: u8 = 6;

/// A text couldn't be said.
pub const UNSAID: u8 = 7;

/// No hand could be hired, or nobody could be listened to.
pub const UNHIRED: u8 = 8;

/// Memory ran out.
pub const OUT_OF_MEMORY: u8 = 9;

/// The run ended REVERTED.
pub const REVERTED: u8 = 10;

/// The run ended FAILURE.
pub const FAILED: u8 = 11;

/// The run was suspended.
pub const SUSPENDED: u8 = 12;

/// The next record would make the book or the board longer than its limit.
pub const FULL: u8 = 13;

/// The book holds a flow already, or holds none, where the command wants it otherwise.
pub const FORBIDDEN: u8 = 14;

/// The board refuses.
pub const BOARD_REFUSED: u8 = 15;

/// The book is of the older format; no command answers it yet.
pub const OLD_BOOK: u8 = 16;
