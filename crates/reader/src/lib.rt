// Reads a text into a node table (document 01).
#![tactic(auto)]

mod commands; // commands.rt: judging an imperative text
mod fill; // fill.rt: the fill of the table from the tape of a text that was judged
mod nested; // nested.rt: judging a nested text
mod root; // root.rt: the root of a text, and what judging a text answers
mod tape; // tape.rt: what the judging walk notes of each node
mod value; // value.rt: the values of parameters
mod walk; // walk.rt: the judging walk over elements

ghost use Rattle.std.specs.Prelude.{◌≡◌, ◌≤◌, length};
ghost use Rattle.base.specs.rules.Limits.{most_bytes};
ghost use Rattle.document.specs.rules.Spelling.{nested, imperative, most_levels};
ghost use Rattle.document.specs.rules.Memory.{answer_at};
ghost use Rattle.reader.specs.internal.FirstGroups.{fault_number, fault_place, group_number, group_place, room_number, room_told, told_number, told_place};
ghost use Rattle.reader.specs.internal.JudgedText.{spelled, JudgesText, TapeOfText};
ghost use Rattle.reader.specs.internal.WalkAnswer.{judged};
ghost use Rattle.reader.specs.Read.{SameAnswer, Reads};

use base::{Refusal, limit, number};
use commands::judge_imperative;
use fill::fill;
use lexer::{Fault, scan};
use nested::judge_nested;
use root::{Counts, Judged};
use tape::{NOT_MET, Tape};

// "A read returns number, place, line, column, node count, pool count."
#[derive(Clone, Copy)]
pub struct Answer {
    pub number: u32,
    pub place: u32,
    pub line: u32,
    pub column: u32,
    pub nodes: u32,
    pub pool: u32,
}

#[derive(Clone, Copy)]
enum Spelling {
    Nested,
    Imperative,
}

// A fault of the groups 1 to 6.
#[derive(Clone, Copy, Debug, PartialEq, Eq)]
enum GroupFault {
    TooLong,
    NotUtf8(usize),
    Scan(Fault),
}

impl GroupFault {
    #[tactic(auto, unfolding(crate::specs::internal::FirstGroups::fault_number))]
    fn number(self) -> u32
        ensures { result ≡ fault_number self }
    {
        match self {
            GroupFault::TooLong => number::TEXT_TOO_LONG,
            GroupFault::NotUtf8(_) => number::NOT_UTF8,
            GroupFault::Scan(fault) => fault.kind.number(),
        }
    }

    #[tactic(auto, unfolding(crate::specs::internal::FirstGroups::fault_place))]
    fn place(self) -> usize
        ensures { result ≡ fault_place self }
    {
        match self {
            GroupFault::TooLong => limit::MOST_BYTES,
            GroupFault::NotUtf8(place) => place,
            GroupFault::Scan(fault) => fault.place,
        }
    }
}

impl From<Fault> for GroupFault {
    ghost use Rattle.std.specs.Prelude.{◌≡◌};
    ghost use Rattle.reader.specs.declared.GroupFault.TheVariants.{Scan};

    ghost from_gives = { λ fault group. group ≡ Scan fault };

    fn from(fault: Fault) -> GroupFault {
        GroupFault::Scan(fault)
    }
}

// How deep the brackets of a spelling nest.
#[tactic(auto, unfolding(document::specs::rules::Spelling::most_levels))]
fn levels(spelling: Spelling) -> usize
    ensures { result ≡ most_levels (spelled spelling) }
{
    match spelling {
        Spelling::Nested => limit::NESTED_LEVELS,
        Spelling::Imperative => limit::IMPERATIVE_LEVELS,
    }
}

// The groups 1 to 6: too long, no UTF-8, and the faults of the scan.
fn first_groups(spelling: Spelling, text: &[u8]) -> Result<(), GroupFault>
    ensures { (told_number result ≡ group_number (most_levels (spelled spelling)) text.now)
        × (told_place result ≡ group_place (most_levels (spelled spelling)) text.now) }
{
    let n = text.len();
    if limit::MOST_BYTES < n {
        return Err(GroupFault::TooLong);
    }
    let valid = utf8::valid_up_to(text);
    if valid < n {
        return Err(GroupFault::NotUtf8(valid));
    }
    scan(text, levels(spelling))?;
    Ok(())
}

// Judges a text that passed the first groups, in its spelling. The spelling is told here and not handed on as a closure, of which `read` would have to require
// both clauses below.
fn judge(spelling: Spelling, text: &[u8], tape: &mut Tape) -> Judged
    requires { length text.now ≤ most_bytes }
    ensures judges_text { JudgesText (spelled spelling) text.now (judged result) }
    ensures tape_of_text { TapeOfText (spelled spelling) text.now (judged result).number tape.old tape.new }
{
    match spelling {
        Spelling::Nested => judge_nested(text, tape),
        Spelling::Imperative => judge_imperative(text, tape),
    }
}

// Whether there is room for so many nodes and pool bytes: 13 where the nodes are too many, 14 where the pool bytes are.
#[tactic(auto, unfolding(crate::specs::internal::FirstGroups::room_number))]
fn room(words: usize, places: usize, bytes: usize, counts: Counts) -> Result<(), Refusal>
    ensures { room_told result ≡ room_number words places bytes counts.nodes counts.pool }
{
    let most = limit::MOST_NODES.min(words / table::RECORD).min(places);
    if most < counts.nodes {
        return Err(Refusal::NodesShort);
    }
    if bytes < counts.pool {
        return Err(Refusal::PoolShort);
    }
    Ok(())
}

// The answer, with line and column of its place. No place and no count passes the longest text.
#[tactic(auto, using(utf8::proofs::PositionBounds::position_within), unfolding(document::specs::rules::Memory::answer_at))]
fn answer_at(text: &[u8], number: u32, place: usize, nodes: usize, pool: usize) -> Answer
    requires { (place ≤ most_bytes) × (nodes ≤ most_bytes) × (pool ≤ most_bytes) }
    ensures { SameAnswer (answer_at text.now number place nodes pool) result }
{
    let p = utf8::position(text, place);
    Answer {
        number,
        place: place as u32,
        line: p.line as u32,
        column: p.column as u32,
        nodes: nodes as u32,
        pool: pool as u32,
    }
}

// Reads a text in a spelling into the lent memory: the answer, and what is left in each slice, whatever the text and however little is lent.
fn read(
    spelling: Spelling,
    text: &[u8],
    nodes: &mut [u32],
    places: &mut [u32],
    pool: &mut [u8],
) -> Answer
    ensures { Reads (spelled spelling) text.now
        (record { nodes = nodes.entry.now; places = places.old; pool = pool.old }) result
        (record { nodes = nodes.exit.now; places = places.new; pool = pool.new }) }
{
    if let Err(fault) = first_groups(spelling, text) {
        return answer_at(text, fault.number(), fault.place(), 0, 0);
    }
    let mut tape = [NOT_MET; limit::MOST_NODES];
    let counts = match judge(spelling, text, &mut tape) {
        Ok(counts) => counts,
        Err(r) => return answer_at(text, r.refusal.number(), r.place, 0, 0),
    };
    if let Err(full) = room(nodes.len(), places.len(), pool.len(), counts) {
        return answer_at(text, full.number(), 0, counts.nodes, counts.pool);
    }
    fill(text, &tape, counts.nodes, nodes, places, pool);
    answer_at(text, number::OK, 0, counts.nodes, counts.pool)
}

// Reads a text in the nested spelling. C and Rust call either spelling by its name, and lend the three slices one by one.
pub fn read_nested(text: &[u8], nodes: &mut [u32], places: &mut [u32], pool: &mut [u8]) -> Answer
    ensures { Reads nested text.now (record { nodes = nodes.entry.now; places = places.old; pool = pool.old }) result
        (record { nodes = nodes.exit.now; places = places.new; pool = pool.new }) }
{
    read(Spelling::Nested, text, nodes, places, pool)
}

// The same in the imperative spelling.
pub fn read_imperative(
    text: &[u8],
    nodes: &mut [u32],
    places: &mut [u32],
    pool: &mut [u8],
) -> Answer
    ensures { Reads imperative text.now (record { nodes = nodes.entry.now; places = places.old; pool = pool.old }) result
        (record { nodes = nodes.exit.now; places = places.new; pool = pool.new }) }
{
    read(Spelling::Imperative, text, nodes, places, pool)
}
