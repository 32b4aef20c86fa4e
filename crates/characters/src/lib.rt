// The classes of bytes, where a symbol ends, and the characters of values (document 01, "Characters and brackets" and "Elements").
#![tactic(auto)]

mod class; // class.rt: the classes of bytes
mod place; // place.rt: the bytes of a text by their places
mod symbol; // symbol.rt: where a symbol ends
mod values; // values.rt: the characters of values

pub use class::{Bracket, ByteClass, byte_class, is_blank, is_ordinary};
pub use place::byte_at;
pub use symbol::symbol_end;
pub use values::{Alphabet, character};
