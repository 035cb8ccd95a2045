// The statuses that the program answers.

/// The status of a command that is done, or of a text that was asked for.
pub const DONE: u8 = 0;

/// The status of a command that is refused.
pub const REFUSED: u8 = 1;

/// The status of a request that asks for nothing.
pub const MISTAKE: u8 = 2;
