// What may stand inside an element (document 01, "Elements"): the table of elements as code, and the step from one child to the next.
#![tactic(auto)]

mod machine; // machine.rt: the states of an element, and the step
mod number; // number.rt: the numbers of the kinds, for patterns
mod rows; // rows.rt: the table of elements

pub use machine::{may_end, step};
