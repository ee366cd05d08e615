// The modes that the code names. A run of text may be open in those up to LAST_TEXT.
pub const TEXT_BEFORE: u8 = b'0';

pub const TEXT_AFTER: u8 = b'1';

pub const TEXT_IN: u8 = b'2';

pub const LAST_TEXT: u8 = b'4';

pub const BANG_OUT: u8 = b':';

pub const BANG_IN: u8 = b';';

pub const BEGIN: u8 = b'\\';

pub const VALUE_DOUBLE: u8 = b'm';

pub const VALUE_SINGLE: u8 = b'n';

pub const END_TAG: u8 = b'p';

pub const WITHIN: u8 = b'x';

pub const SPELLED: u8 = b'y';
