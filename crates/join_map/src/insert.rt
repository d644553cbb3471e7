//! Where a new place goes among the blocks.

ghost use Rattle.std.specs.Prelude.{◌≡◌, ◌<◌, ◌≤◌, [], ◌∷◌, ◌++◌, length, IfOk, OnOk, OnErr};
ghost use Rattle.join_map.specs.Blocks.{block_at, entries_of, AllFilled, IsGap, IsMoved, before, after};

use crate::block::{Block, LIMIT};
use crate::blocks::Spot;
use memory::Want;
use std::alloc::Global;

/// Inserts a place at `spot`. After `Want` the places are as before.
#[tactic(auto, using(crate::proofs::BlockLemmas::for_insert_at))]
pub(crate) fn insert_at(
    blocks: &mut Vec<Block>,
    alloc: Global,
    spot: Spot,
    place: usize,
) -> Result<(), Want>
    requires gap { IsGap blocks.old.items spot }
    requires filled { AllFilled blocks.old.items }
    ensures ok { OnOk result (entries_of blocks.new.items ≡ before blocks.old.items spot ++ place ∷ after blocks.old.items spot) }
    ensures err { OnErr result (entries_of blocks.new.items ≡ entries_of blocks.old.items) }
    ensures filled { AllFilled blocks.new.items }
{
    if blocks.is_empty() {
        return insert_first(blocks, alloc, place);
    }
    let spot = make_room(blocks, alloc, spot)?;
    insert_in(blocks, spot, place)
}

// Puts the first place into a block. After `Want` there is none.
#[tactic(auto, using(crate::proofs::BlockLemmas::entries_of_first, crate::proofs::BlockLemmas::filled_first))]
fn insert_first(blocks: &mut Vec<Block>, alloc: Global, place: usize) -> Result<(), Want>
    requires none { length blocks.old.items ≡ 0 }
    requires filled { AllFilled blocks.old.items }
    ensures ok { OnOk result (entries_of blocks.new.items ≡ place ∷ []) }
    ensures err { OnErr result (entries_of blocks.new.items ≡ entries_of blocks.old.items) }
    ensures filled { AllFilled blocks.new.items }
{
    blocks.push(Block::from_places(alloc, &[place])?)?;
    Ok(())
}

// Inserts a place at `spot` of a block. After `Want` the places are as before.
#[tactic(auto, using(std::proofs::lemmas::List::get_or_read, crate::proofs::BlockLemmas::for_insert_in, crate::proofs::PutLemmas::on_err))]
fn insert_in(blocks: &mut Vec<Block>, spot: Spot, place: usize) -> Result<(), Want>
    requires block { spot.block < length blocks.old.items }
    requires offset { spot.offset ≤ length (block_at blocks.old.items spot.block) }
    requires filled { AllFilled blocks.old.items }
    ensures ok { OnOk result (entries_of blocks.new.items ≡ before blocks.old.items spot ++ place ∷ after blocks.old.items spot) }
    ensures err { OnErr result (entries_of blocks.new.items ≡ entries_of blocks.old.items) }
    ensures filled { AllFilled blocks.new.items }
{
    let block = &mut blocks[spot.block];
    block.insert(spot.offset, place)?;
    Ok(())
}

// Splits the block of `spot` where it is full. Returns where `spot` is then.
#[tactic(auto, using(crate::proofs::BlockLemmas::for_make_room, crate::proofs::PutLemmas::on_err))]
fn make_room(blocks: &mut Vec<Block>, alloc: Global, spot: Spot) -> Result<Spot, Want>
    requires block { spot.block < length blocks.old.items }
    requires gap { IsGap blocks.old.items spot }
    requires filled { AllFilled blocks.old.items }
    ensures ok { IfOk result (λ moved. IsMoved blocks.old.items spot blocks.new.items moved) }
    ensures err { OnErr result (entries_of blocks.new.items ≡ entries_of blocks.old.items) }
    ensures filled { AllFilled blocks.new.items }
{
    if blocks[spot.block].places().len() < LIMIT {
        return Ok(spot);
    }
    blocks.reserve(1)?;
    let at = cut_of(spot.offset);
    let block = &mut blocks[spot.block];
    let rest = block.split(at)?;
    blocks.insert(spot.block + 1, rest)?;
    if spot.offset <= at {
        return Ok(spot);
    }
    Ok(Spot {
        block: spot.block + 1,
        offset: spot.offset - at,
    })
}

// Returns where a full block is split for a new place at `offset`: in halves; but keys that come in order, rising or
// falling, go to an end, and leave a full block behind them.
fn cut_of(offset: usize) -> usize
    ensures { (0 < result) × (result < LIMIT) }
{
    if offset == 0 {
        1
    } else if offset < LIMIT {
        LIMIT / 2
    } else {
        LIMIT - 1
    }
}
