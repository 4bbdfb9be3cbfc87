// What a text of tables is, and what reader, writer and the two programs give: definitions, their laws and known texts; and the numbers that texts go by. No function
// stands here.
#![tactic(auto)]

// The longest text, and the largest magnitude of a value and of every other number in it: `text_limit`, `value_limit` and `narrow_limit` of the definitions.
pub const TEXT_LIMIT: usize = 65536;

pub const VALUE_LIMIT: u64 = 2305843009213693951;

pub const NARROW_LIMIT: u32 = 2147483647;
