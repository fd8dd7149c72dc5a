ghost use Rattle.std.specs.Prelude.{◌≡◌};
ghost use Rattle.mm_types.specs.Machine.{MachineOf, IsMachine, limit_of};

use std::marker::Model;

/// A machine's four numbers, in range: 6 to 262,144 frames, at most 262,144 slots, a depth of 1 to
/// 64 requests with at least `2 * depth + 4` frames, at most 65,536 blocks.
pub struct Machine {
    frames: u32,
    slots: u32,
    depth: u32,
    blocks: u32,
}

impl Model for Machine {
    ghost Value = { MachineOf };

    ghost view = { λ m. record {
      frames = m.frames;
      slots = m.slots;
      depth = m.depth;
      blocks = m.blocks;
    } };

    ghost invariant = { λ m. IsMachine (record {
      frames = m.frames;
      slots = m.slots;
      depth = m.depth;
      blocks = m.blocks;
    }) };

    ghost inverse = { λ d. record {
      frames = d.frames;
      slots = d.slots;
      depth = d.depth;
      blocks = d.blocks;
    } };
}

impl Clone for Machine {
    fn clone(&self) -> Result<Machine, std::alloc::AllocError> {
        Ok(*self)
    }
}

impl Copy for Machine {}

impl Machine {
    /// A machine of these numbers.
    pub fn new(frames: u32, slots: u32, depth: u32, blocks: u32) -> Machine
        requires { IsMachine (record {
          frames = frames;
          slots = slots;
          depth = depth;
          blocks = blocks;
        }) }
        ensures { result ≡ record {
          frames = frames;
          slots = slots;
          depth = depth;
          blocks = blocks;
        } }
    {
        Machine {
            frames,
            slots,
            depth,
            blocks,
        }
    }

    /// The commit limit in pages: frames and slots, less the reserve of `2 * depth + 2`.
    pub fn limit(&self) -> u32
        ensures { result ≡ limit_of self.now }
    {
        self.frames + self.slots - (2 * self.depth + 2)
    }

    pub fn frames(&self) -> u32
        ensures { result ≡ self.now.frames }
    {
        self.frames
    }

    pub fn slots(&self) -> u32
        ensures { result ≡ self.now.slots }
    {
        self.slots
    }

    pub fn depth(&self) -> u32
        ensures { result ≡ self.now.depth }
    {
        self.depth
    }

    pub fn blocks(&self) -> u32
        ensures { result ≡ self.now.blocks }
    {
        self.blocks
    }
}
