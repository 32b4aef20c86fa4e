// Symbols and strings: the pieces of a string, where a string ends, whether what it stands for are characters
// of an alphabet, and what it stands for written out (document 01, "Characters and brackets" and number 4).
#![tactic(auto)]

mod escape; // escape.rt: escapes by number
mod fit; // fit.rt: whether what a symbol or string stands for are characters of an alphabet
mod pieces; // pieces.rt: the pieces of a quoted string
mod run; // run.rt: runs of plain bytes, and bytes written as they stand
mod stores; // stores.rt: what a symbol or string stands for, written out
mod string; // string.rt: quoted strings

pub use fit::{atom_fits, atom_is_in};
pub use stores::put_atom;
pub use string::{BadString, StringEnd, string_at};
