// The codes of the attribute keys.
pub const NAME: usize = 1;

pub const CLASSNAME: usize = 2;

pub const UUID: usize = 3;

pub const TIMESTAMP: usize = 4;

pub const TIME: usize = 5;

pub const TESTS: usize = 6;

pub const FAILURES: usize = 7;

pub const ERRORS: usize = 8;

pub const SKIPPED: usize = 9;

pub const DISABLED: usize = 10;

pub const ASSERTIONS: usize = 11;

pub const MESSAGE: usize = 12;

pub const TYPE: usize = 13;

pub const VALUE: usize = 14;

pub const HOSTNAME: usize = 15;
