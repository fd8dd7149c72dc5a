ghost use Rattle.std.specs.Prelude.{◌≡◌, ◌≤◌, ◌<◌, ◌+◌, ◌++◌, [], None, Some, OnOk, OnErr, length, replicate, slice_get, slice_set, vec_len, vec_capacity};
ghost use Rattle.mm_devices.specs.Traffic.{empty_block};

use mm_types::NoMemory;
use std::alloc::Global;
use std::marker::Model;

/// What a block holds before its first write.
static EMPTY: [u8; 4096] = [0; 4096];

/// Blocks of which only those that were written take memory of their own, each at its first write.
/// Contracts see the list of all blocks' bytes.
#[derive(Drop)]
pub(crate) struct Store {
    blocks: Vec<Option<Box<[u8; 4096]>>>,
    alloc: Global,
}

impl Model for Store {
    ghost use Rattle.std.specs.Prelude.{List, ℕ, map};
    ghost use Rattle.mm_devices.specs.Stores.{block_bytes};

    ghost Value = { List (List ℕ) };

    ghost view = { λ s. map block_bytes s.blocks.items };
}

impl Store {
    /// No blocks.
    pub(crate) fn new(alloc: Global) -> Store
        ensures { result ≡ [] }
    {
        Store {
            blocks: Vec::new(alloc),
            alloc,
        }
    }

    /// How many blocks there are.
    pub(crate) fn count(&self) -> usize
        ensures { result ≡ length self.now }
    {
        self.blocks.len()
    }

    /// n blocks of zeros more at the end. It takes no memory for what will be written to them.
    pub(crate) fn add(&mut self, n: u32) -> Result<(), NoMemory>
        ensures ok { OnOk result (self.new ≡ self.old ++ replicate n empty_block) }
        ensures err { OnErr result (self.new ≡ self.old) }
    {
        self.blocks.reserve(n as usize)?;
        push_unwritten(&mut self.blocks, n);
        Ok(())
    }

    /// The bytes of block i, counted from 0.
    pub(crate) fn block(&self, i: u32) -> &[u8; 4096]
        requires { i < length self.now }
        ensures { slice_get self.now i ≡ Some result.now }
    {
        match &self.blocks[i as usize] {
            Some(bytes) => bytes,
            None => &EMPTY,
        }
    }

    /// Block i, counted from 0, holds these bytes. Its first write takes memory; after an error all
    /// blocks are as before.
    pub(crate) fn put(&mut self, i: u32, bytes: &[u8; 4096]) -> Result<(), NoMemory>
        requires { i < length self.old }
        ensures ok { OnOk result (self.new ≡ slice_set self.old i bytes.now) }
        ensures err { OnErr result (self.new ≡ self.old) }
        ensures unwritten { OnErr result (slice_get self.old i ≡ Some empty_block) }
    {
        if let Some(held) = &mut self.blocks[i as usize] {
            **held = *bytes;
            return Ok(());
        }
        self.blocks[i as usize] = Some(Box::new(self.alloc, *bytes)?);
        Ok(())
    }
}

/// Adds n blocks that were never written, in room that was taken before.
fn push_unwritten(blocks: &mut Vec<Option<Box<[u8; 4096]>>>, n: u32)
    requires { vec_len blocks.old + n ≤ vec_capacity blocks.old }
    ensures { blocks.new.items ≡ blocks.old.items ++ replicate n None }
{
    for _ in 0..n {
        blocks.push_reserved(None);
    }
}
