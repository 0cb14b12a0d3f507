/// The byte after each line of a text.
pub const LF: u8 = b'\n';

/// The byte between the words of a line.
pub const SPACE: u8 = b' ';

/// The byte between values of a list.
pub const COMMA: u8 = b',';

/// The byte between the two ends of a range.
pub const DASH: u8 = b'-';

/// The byte between the fields of a value.
pub const COLON: u8 = b':';

/// The byte between a key and its value.
pub const EQUALS: u8 = b'=';
