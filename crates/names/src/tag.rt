// The codes of the tag names.
pub const TESTSUITES: usize = 1;

pub const TESTSUITE: usize = 2;

pub const TESTCASE: usize = 3;

pub const PROPERTIES: usize = 4;

pub const PROPERTY: usize = 5;

pub const FAILURE: usize = 6;

pub const ERROR: usize = 7;

pub const SKIPPED: usize = 8;

pub const FLAKY_FAILURE: usize = 9;

pub const FLAKY_ERROR: usize = 10;

pub const RERUN_FAILURE: usize = 11;

pub const RERUN_ERROR: usize = 12;

pub const STACK_TRACE: usize = 13;

pub const SYSTEM_OUT: usize = 14;

pub const SYSTEM_ERR: usize = 15;
