// The limits that several layers go by, each named once.

// 'A leg record has 32 bytes', and so has a claim record.
pub const RECORD_BYTES: usize = 32;

// 'Holdings and placement have 0 to 256 records each, claims 0 to 32.'
pub const MOST_LEGS: usize = 256;

pub const MOST_CLAIMS: usize = 32;

// 'group, 0 to 32'
pub const MOST_GROUPS: u16 = 32;

// 'contracts, 1 to 100,000'; of a line and side that the day's fills leave, too: 'at most 100,000 contracts' (02, [4])
pub const MOST_CONTRACTS: u32 = 100000;

// No margin and no total passes it.
pub const MOST_MILLS: u64 = 2560000000000000000;
