// The form of what is written, as specs/inside/Forms.antt of write_table has it: a table, or XML with what stands before.
pub const TABLE: u32 = 0;

pub const IN_EMPTY: u32 = 1;

pub const IN_TAG: u32 = 2;

pub const BEHIND_TAG: u32 = 3;

pub const FREE: u32 = 4;
