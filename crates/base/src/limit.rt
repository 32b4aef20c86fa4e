// The limits of the language, under the names of specs/rules/Limits.antt.
// The bytes of a text, and of a pool.
pub const MOST_BYTES: usize = 65536;

pub const MOST_NODES: usize = 4096;

// How deep brackets nest, in the nested spelling and in the imperative one.
pub const NESTED_LEVELS: usize = 64;

pub const IMPERATIVE_LEVELS: usize = 59;
