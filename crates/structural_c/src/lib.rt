// The functions for C and Rust, under their plain names: each is that of `structural` with the same name, and promises the same. A slice is a pointer and a length.
#![tactic(auto)]

ghost use Rattle.document.specs.rules.Spelling.{nested, imperative};
ghost use Rattle.structural.specs.Calls.{ReadCall, CheckCall, PrintCall};

// read_nested, with its answer in six words; returns the number.
#[unsafe(no_mangle)]
pub extern "C" fn structural_read_nested(
    text: &[u8],
    nodes: &mut [u32],
    places: &mut [u32],
    pool: &mut [u8],
    answer: &mut [u32],
) -> u32
    ensures { ReadCall nested text.now (record { nodes = nodes.entry.now; places = places.old; pool = pool.old }) answer.old
        result (record { nodes = nodes.exit.now; places = places.new; pool = pool.new }) answer.new }
{
    structural::structural_read_nested(text, nodes, places, pool, answer)
}

// read_imperative in the same way: C has two names for them.
#[unsafe(no_mangle)]
pub extern "C" fn structural_read_imperative(
    text: &[u8],
    nodes: &mut [u32],
    places: &mut [u32],
    pool: &mut [u8],
    answer: &mut [u32],
) -> u32
    ensures { ReadCall imperative text.now (record { nodes = nodes.entry.now; places = places.old; pool = pool.old }) answer.old
        result (record { nodes = nodes.exit.now; places = places.new; pool = pool.new }) answer.new }
{
    structural::structural_read_imperative(text, nodes, places, pool, answer)
}

// check, with its answer in two words; returns the number.
#[unsafe(no_mangle)]
pub extern "C" fn structural_check(
    nodes: &[u32],
    node_count: u32,
    pool: &[u8],
    pool_count: u32,
    answer: &mut [u32],
) -> u32
    ensures { CheckCall nodes.now node_count pool.now pool_count answer.old result answer.new }
{
    structural::structural_check(nodes, node_count, pool, pool_count, answer)
}

// print, with its answer in two words; returns the number.
#[unsafe(no_mangle)]
pub extern "C" fn structural_print(
    nodes: &[u32],
    node_count: u32,
    pool: &[u8],
    pool_count: u32,
    out: &mut [u8],
    answer: &mut [u32],
) -> u32
    ensures { PrintCall nodes.now node_count pool.now pool_count out.old answer.old result out.new answer.new }
{
    structural::structural_print(nodes, node_count, pool, pool_count, out, answer)
}
