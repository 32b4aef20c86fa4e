// Prints the canonical spelling of the document whose node table it is given (document 01, "Printing returns number and length").
#![tactic(auto)]

mod name; // name.rt: the names of the classes
mod put; // put.rt: writes the pieces of a spelling
mod spell; // spell.rt: the spelling of a table's nodes

ghost use Rattle.std.specs.Prelude.{◌≡◌};
ghost use Rattle.document.specs.reference.Printing.{printing};
ghost use Rattle.printer.specs.Prints.{Prints};

use base::number;
use spell::spelled;
use table::RECORD;

// "Printing returns number and length." They stay numbers: `printed` of structural/specs/Demands.antt names both, and C has them as two words.
#[derive(Clone, Copy)]
pub struct Printed {
    pub number: u32,
    pub length: u32,
}

// Writes the canonical spelling, or says why not: 20 where it is no draft's table, 21 with the length needed where the output is too short.
// It is measured first, so that a refusal leaves the output as it was.
pub fn print(
    nodes: &[u32],
    node_count: u32,
    pool: &[u8],
    pool_count: u32,
    out: &mut [u8],
) -> Printed
    ensures { Prints (printing nodes.now node_count pool.now pool_count out.old) result out.new }
{
    if !validate::is_draft(nodes, node_count, pool, pool_count) {
        return Printed {
            number: number::NOT_A_TABLE,
            length: 0,
        };
    }
    let words = RECORD * (node_count as usize);
    let bytes = pool_count as usize;
    let table = &nodes[..words];
    let strings = &pool[..bytes];
    let mut nothing = [0u8; 1];
    let length = spelled(table, strings, &mut nothing);
    if out.len() < length {
        return Printed {
            number: number::OUTPUT_SHORT,
            length: length as u32,
        };
    }
    spelled(table, strings, out);
    Printed {
        number: number::OK,
        length: length as u32,
    }
}
