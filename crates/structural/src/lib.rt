// What others call: reading in both spellings, the check of a table, and printing; the same with the answer in words, as `structural_c` hands it to C and Rust.
// What holds of calls one after the other is in proofs/.
#![tactic(auto)]

ghost use Rattle.std.specs.Prelude.{◌≡◌, [], ◌∷◌};
ghost use Rattle.document.specs.rules.Spelling.{nested, imperative};
ghost use Rattle.structural.specs.Calls.{ReadCall, CheckCall, PrintCall};

pub use printer::{Printed, print};
pub use reader::{Answer, read_imperative, read_nested};
pub use validate::{Checked, check};

// What is returned where the slice for the answer is too short; nothing is touched then. It is a number, and no `None`, for C (include/structural.h).
const NO_ANSWER: u32 = 4294967295;

// "number, place, line, column, node count, pool count"
fn put_answer(a: Answer, words: &mut [u32; 6])
    ensures { words.new ≡ a.number ∷ a.place ∷ a.line ∷ a.column ∷ a.nodes ∷ a.pool ∷ [] }
{
    *words = [a.number, a.place, a.line, a.column, a.nodes, a.pool];
}

// read_nested, with its answer in six words; returns the number.
pub fn structural_read_nested(
    text: &[u8],
    nodes: &mut [u32],
    places: &mut [u32],
    pool: &mut [u8],
    answer: &mut [u32],
) -> u32
    ensures { ReadCall nested text.now (record { nodes = nodes.entry.now; places = places.old; pool = pool.old }) answer.old
        result (record { nodes = nodes.exit.now; places = places.new; pool = pool.new }) answer.new }
{
    let Some(words) = answer.first_chunk_mut() else {
        return NO_ANSWER;
    };
    let a = read_nested(text, nodes, places, pool);
    put_answer(a, words);
    a.number
}

// read_imperative in the same way. Its body is not shared with the one above: the two differ in the function that is called, and a function over that
// choice would be longer than both.
pub fn structural_read_imperative(
    text: &[u8],
    nodes: &mut [u32],
    places: &mut [u32],
    pool: &mut [u8],
    answer: &mut [u32],
) -> u32
    ensures { ReadCall imperative text.now (record { nodes = nodes.entry.now; places = places.old; pool = pool.old }) answer.old
        result (record { nodes = nodes.exit.now; places = places.new; pool = pool.new }) answer.new }
{
    let Some(words) = answer.first_chunk_mut() else {
        return NO_ANSWER;
    };
    let a = read_imperative(text, nodes, places, pool);
    put_answer(a, words);
    a.number
}

// check, with its answer in two words; returns the number.
pub fn structural_check(
    nodes: &[u32],
    node_count: u32,
    pool: &[u8],
    pool_count: u32,
    answer: &mut [u32],
) -> u32
    ensures { CheckCall nodes.now node_count pool.now pool_count answer.old result answer.new }
{
    let Some(words) = answer.first_chunk_mut() else {
        return NO_ANSWER;
    };
    let c = check(nodes, node_count, pool, pool_count);
    *words = [c.number, c.node];
    c.number
}

// print, with its answer in two words; returns the number.
pub fn structural_print(
    nodes: &[u32],
    node_count: u32,
    pool: &[u8],
    pool_count: u32,
    out: &mut [u8],
    answer: &mut [u32],
) -> u32
    ensures { PrintCall nodes.now node_count pool.now pool_count out.old answer.old result out.new answer.new }
{
    let Some(words) = answer.first_chunk_mut() else {
        return NO_ANSWER;
    };
    let p = print(nodes, node_count, pool, pool_count, out);
    *words = [p.number, p.length];
    p.number
}
