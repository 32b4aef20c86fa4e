// The scan, and what stands at a place of a text (document 01, "Characters and brackets" and numbers 3 to 6).
#![tactic(auto)]

mod name; // name.rt: names told by their first bytes
mod open; // open.rt: the brackets that are open
mod scanner; // scanner.rt: the scan, faults 3 to 6
mod token; // token.rt: white space, and what is seen at a place

pub use scanner::{Fault, FaultKind, scan};
pub use token::{A_LIST, A_STRING, A_SYMBOL, Lead, Seen, THE_END, lead_at, look, past_blanks};
