//! Which blocks are free.

ghost use Rattle.std.specs.Prelude.{◌≡◌, ◌≢◌, ℕ, ◌+◌, ◌*◌, ◌^◌, ◌<◌, ◌≤◌, true, false, length, replicate, slice_set, not, IfOk, IfSome, MatchOption};
ghost use Rattle.block_alloc.specs.Bits.{first_bit};
ghost use Rattle.block_alloc.specs.Free.{is_free, free_count, one_if, IsLowest};

use crate::bits::{has_bit, lowest_leaf, write_path};
use nfs2_types::NoMemory;
use std::alloc::Global;
use std::marker::Model;

/// A map of blocks, which are counted from 0. A call takes a few steps for each factor of 64 in their number.
#[derive(Debug, Drop)]
pub struct BlockMap {
    words: Vec<u64>,
    depth: u32,
    leaf: usize,
    blocks: u32,
    count: u32,
}

impl Model for BlockMap {
    ghost use Rattle.std.specs.Prelude.{List, Bool};
    ghost use Rattle.block_alloc.specs.Bits.{blocks_of};
    ghost use Rattle.block_alloc.specs.Kept.{IsKept};

    ghost Value = { List Bool };

    ghost view = { λ m. blocks_of m.words.items m.leaf m.blocks };

    ghost invariant = { λ m. IsKept m.words.items m.depth m.leaf m.blocks m.count };
}

impl BlockMap {
    /// A map of so many blocks, all free. It alone takes memory, about a bit for each block.
    pub fn new(alloc: Global, blocks: u32) -> Result<BlockMap, NoMemory>
        ensures { IfOk result (λ map. map ≡ replicate blocks true) }
    {
        let mut map = BlockMap::all_taken(alloc, blocks)?;
        for block in 0..blocks {
            map.give(block);
        }
        Ok(map)
    }

    /// A map of so many blocks, none free.
    fn all_taken(alloc: Global, blocks: u32) -> Result<BlockMap, NoMemory>
        ensures { IfOk result (λ map. map ≡ replicate blocks false) }
    {
        let (depth, leaf) = shape_for(blocks);
        let size = (leaf + blocks as usize) / 64 + 1;
        let words = Vec::from_elem(alloc, 0, size).map_err(|_| NoMemory)?;
        Ok(BlockMap {
            words,
            depth,
            leaf,
            blocks,
            count: 0,
        })
    }

    /// Takes the lowest free block. `None` comes exactly where none is free.
    pub fn take(&mut self) -> Option<u32>
        ensures block { MatchOption result (free_count self.old ≡ 0) (λ b. IsLowest self.old b) }
        ensures after { MatchOption result (self.new ≡ self.old) (λ b. self.new ≡ slice_set self.old b false) }
        ensures count { IfSome result (λ b. free_count self.new + 1 ≡ free_count self.old) }
    {
        if self.words[0] == 0 {
            return None;
        }
        let bit = lowest_leaf(&self.words, self.depth);
        let block = (bit - self.leaf) as u32;
        self.mark(block, false);
        Some(block)
    }

    /// Takes this block, if it is free.
    pub fn claim(&mut self, block: u32)
        requires within { block < length self.old }
        ensures after { self.new ≡ slice_set self.old block false }
        ensures count { free_count self.new + one_if (is_free self.old block) ≡ free_count self.old }
    {
        if self.is_free(block) {
            self.mark(block, false);
        }
    }

    /// Gives a block back.
    pub fn give(&mut self, block: u32)
        requires within { block < length self.old }
        requires taken { is_free self.old block ≡ false }
        ensures after { self.new ≡ slice_set self.old block true }
        ensures count { free_count self.new ≡ free_count self.old + 1 }
    {
        self.mark(block, true);
    }

    /// Makes a block free that is taken, or the other way.
    fn mark(&mut self, block: u32, free: bool)
        requires within { block < length self.old }
        requires other { is_free self.old block ≡ not free }
        ensures after { self.new ≡ slice_set self.old block free }
        ensures count { free_count self.new + one_if (not free) ≡ free_count self.old + one_if free }
    {
        let count = if free { self.count + 1 } else { self.count - 1 };
        write_path(&mut self.words, self.leaf, self.leaf + block as usize, free);
        self.count = count;
    }

    /// Whether a block is free.
    pub fn is_free(&self, block: u32) -> bool
        requires within { block < length self.now }
        ensures { result ≡ is_free self.now block }
    {
        has_bit(&self.words, self.leaf + block as usize)
    }

    /// How many blocks the map has.
    pub fn blocks(&self) -> u32
        ensures { result ≡ length self.now }
    {
        self.blocks
    }

    /// How many blocks are free.
    pub fn free(&self) -> u32
        ensures { result ≡ free_count self.now }
    {
        self.count
    }
}

/// How far the words of so many blocks lie below the first word, and the bit of the first block.
fn shape_for(blocks: u32) -> (u32, usize)
    ensures leaf { result.1 ≡ first_bit result.0 }
    ensures room { result.1 + blocks ≤ 64 * (result.1 + 1) }
    ensures small { result.1 < 2 ^ 34 }
{
    let mut depth = 0;
    let mut leaf = 0;
    while 63 * leaf + 64 < blocks as usize {
        leaf = 64 * (leaf + 1);
        depth += 1;
    }
    (depth, leaf)
}
