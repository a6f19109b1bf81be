// Reading into rows.

ghost use Rattle.std.specs.Prelude.{◌≡◌, ◌∷◌, map, replicate, IfOk};
ghost use Rattle.reader_rows.specs.Rows.{packed, node_row, rows_of, Shown, ReadInto};
ghost use Rattle.syntax.specs.declared.node.Node.TheVariants.{Top};

use crate::row::Row;
use lines::{Answer, Line};
use reader::{Node, Phrase, Tokens, read};
use std::alloc::{AllocError, Global};
use tables::LineTable;

// The result where memory was refused.
const NO_MEMORY: u64 = u64::MAX;

fn pack(answer: Answer) -> u64
    ensures { result ≡ packed answer }
{
    (u64::from(answer.number()) << 40) + (u64::from(answer.place()) << 8)
}

pub fn read_source(heap: Global, source: &[u8], records: &mut [Line], rows: &mut [Row]) -> u64
    ensures { ReadInto source.now records.old rows.old rows.new result }
{
    let tokens = match Tokens::new(source) {
        Ok(tokens) => tokens,
        Err(fault) => return pack(fault.into()),
    };
    let count = records.len();
    let mut table = LineTable::new(records);
    if let Err(fault) = table.adopt(count) {
        return pack(fault.into());
    }
    let Ok(mut places) = places(heap, rows.len().saturating_sub(1)) else {
        return NO_MEMORY;
    };
    match read(tokens, &table, &mut places, heap) {
        Ok((phrase, nodes)) => {
            show(phrase, nodes, rows);
            0
        }
        Err(fault) => pack(fault.into()),
    }
}

// So many places for nodes.
fn places(heap: Global, n: usize) -> Result<Vec<Node>, AllocError>
    ensures { IfOk result (λ places. places.items ≡ replicate n Top) }
{
    Ok(vec![in heap; Node::Top; n]?)
}

// Writes the rows of the phrase and of its nodes, as many as there is room for.
fn show(phrase: Phrase, nodes: &[Node], rows: &mut [Row])
    ensures { Shown (rows_of phrase nodes.now) rows.old rows.new }
{
    if rows.is_empty() {
        return;
    }
    rows[0] = Row::of_phrase(phrase);
    for i in 0..nodes.len().min(rows.len() - 1) {
        rows[i + 1] = Row::of_node(nodes[i]);
    }
}
