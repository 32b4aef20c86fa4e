// What every crate stands on: the limits and numbers by name, byte strings compared, and bytes written into lent memory as far as it reaches.
#![tactic(auto)]

mod compare; // compare.rt: the comparison of two byte strings
mod copy; // copy.rt: a part of one slice copied into another
pub mod limit; // limit.rt: the limits of the language
pub mod number; // number.rt: the numbers answered
mod put; // put.rt: bytes written one after another, each function giving the next index
mod refusal; // refusal.rt: the refusals
mod store; // store.rt: bytes stored at an index, as many as there are places for

pub use compare::equal;
pub use copy::copy_part;
pub use put::{put_byte, put_bytes};
pub use refusal::Refusal;
pub use store::{lesser, store_all};
