//! The rows of a piece as blocks.

ghost use Rattle.std.specs.Prelude.{◌≡◌, ◌++◌, IfOk, OnOk};
ghost use Rattle.oim_rows.specs.Streams.{facts_of_rows};
ghost use Rattle.oim_decode.specs.state.RowEnds.{stretches};

use crate::piece::piece_rows::PieceRows;
use crate::piece::written_rows::WrittenRows;
use crate::table::pending_facts::PendingFacts;
use crate::table::table_blocks::MOST;
use oim_json::{Block, Spare};
use std::alloc::{AllocError, Global};

/// Appends some facts to `blocks` as blocks.
#[tactic(auto, using(crate::proofs::BlockLists::block_more, crate::proofs::BlockLists::block_taken))]
fn push_blocks(
    alloc: Global,
    facts: PendingFacts,
    blocks: &mut Vec<Block>,
) -> Result<(), AllocError>
    ensures { OnOk result (facts_of_rows blocks.new.items ≡ facts_of_rows blocks.old.items ++ facts) }
{
    let mut facts = facts;
    while facts.count() > MOST {
        let block = facts.take_block(MOST, Spare::new(alloc))?;
        blocks.push(block)?;
    }
    let count = facts.count();
    if count == 0 {
        return Ok(());
    }
    blocks.push(facts.into_block(count))?;
    Ok(())
}

/// Appends the facts of stretches of rows to `blocks`, stretch by stretch.
#[tactic(auto, using(crate::proofs::BlockLists::stretch_more, crate::proofs::BlockLists::no_stretch))]
fn push_stretches(
    alloc: Global,
    full: Vec<WrittenRows>,
    blocks: &mut Vec<Block>,
) -> Result<(), AllocError>
    ensures { OnOk result (facts_of_rows blocks.new.items ≡ facts_of_rows blocks.old.items ++ facts_of_rows (stretches full.items)) }
{
    for stretch in full {
        push_blocks(alloc, stretch.into_facts(), blocks)?;
    }
    Ok(())
}

/// Returns the facts of rows in blocks, row by row. Each stretch that has facts is one block, or
/// more if a block cannot have them all.
#[tactic(auto, using(crate::proofs::BlockLists::all_stretches))]
pub(crate) fn blocks_of(alloc: Global, rows: PieceRows) -> Result<Vec<Block>, AllocError>
    ensures { IfOk result (λ blocks. facts_of_rows blocks.items ≡ facts_of_rows rows) }
{
    let (full, last) = rows.into_stretches();
    let mut blocks = Vec::with_capacity(alloc, full.len().saturating_add(1))?;
    push_stretches(alloc, full, &mut blocks)?;
    push_blocks(alloc, last.into_facts(), &mut blocks)?;
    Ok(blocks)
}
