// The first word of each field: specs/Words.antt.
// Word 0: the kind.
pub const KIND: usize = 0;

// Word 1: the presence bits.
pub const BITS: usize = 1;

// A report's, suite's, case's or property's name; a status element's message; an extra's key.
pub const NAME: usize = 2;

pub const MESSAGE: usize = 2;

pub const KEY: usize = 2;

// System-out of a suite, case or run; the value of a property or extra; a report's UUID, in two halves.
pub const OUT: usize = 4;

pub const VALUE: usize = 4;

pub const UUID: usize = 4;

pub const UUID_BACK: usize = 6;

// System-err of a suite, case or run.
pub const ERR: usize = 6;

// A timestamp, by its words.
pub const TIMESTAMP: usize = 8;

pub const YEAR: usize = 8;

pub const MONTH: usize = 9;

pub const DAY: usize = 10;

pub const HOUR: usize = 11;

pub const MINUTE: usize = 12;

pub const SECOND: usize = 13;

pub const NANOS: usize = 14;

pub const OFFSET: usize = 15;

// A time, by its words.
pub const TIME: usize = 16;

pub const SECONDS: usize = 16;

pub const TIME_NANOS: usize = 17;

// The counts of a report or suite.
pub const TESTS: usize = 18;

pub const FAILURES: usize = 20;

pub const ERRORS: usize = 22;

pub const SKIPPED: usize = 24;

pub const DISABLED: usize = 26;

// Of a suite.
pub const HOSTNAME: usize = 28;

// Of a case.
pub const CLASSNAME: usize = 18;

pub const ASSERTIONS: usize = 20;

// Of a status element.
pub const TYPE: usize = 18;

pub const DESCRIPTION: usize = 20;

// Of a run.
pub const STACK_TRACE: usize = 22;
