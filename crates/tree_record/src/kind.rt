// The kinds of records: specs/Kinds.antt.
pub const REPORT: u32 = 1;

pub const SUITE: u32 = 2;

pub const CASE: u32 = 3;

pub const SUITE_PROPERTY: u32 = 4;

pub const CASE_PROPERTY: u32 = 5;

// The mains.
pub const FAILURE: u32 = 6;

pub const ERROR: u32 = 7;

pub const SKIPPED: u32 = 8;

// The runs.
pub const FLAKY_FAILURE: u32 = 9;

pub const FLAKY_ERROR: u32 = 10;

pub const RERUN_FAILURE: u32 = 11;

pub const RERUN_ERROR: u32 = 12;

pub const SUITE_EXTRA: u32 = 13;

pub const CASE_EXTRA: u32 = 14;

// What a dead record's kind has more.
pub const DEAD: u32 = 16;
