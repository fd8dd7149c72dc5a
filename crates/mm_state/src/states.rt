ghost use Rattle.std.specs.Prelude.{◌≡◌, IfOk, IfErr, length};
ghost use Rattle.mm_types.specs.{Both};
ghost use Rattle.mm_move_rules.specs.{BytesLocated};
ghost use Rattle.mm_parts.specs.PartsShown as parts_of;
ghost use Rattle.mm_parts.specs.{first_move};
ghost use Rattle.mm_devices.specs.{device_with};
ghost use Rattle.mm_state.specs.Shown.{MachineStarts};
ghost use Rattle.mm_state.specs.Tallied.{IsTallied};
ghost use Rattle.mm_state.specs.Whole.{AreWhole};

use crate::tallies::Tallies;
use mm_devices::Inject;
use mm_log_writer::Moves;
use mm_parts::Parts;
use mm_types::{LineKind, Machine, Move, NoMemory, Unmade};
use std::alloc::Global;

/// The parts of a machine, over a paging device, a device of files and a sink of moves.
///
/// Contracts see what it shows (`StateOf`): the state of the replay with its log, the bytes of each
/// live key, and what the line told of devices.
#[derive(Drop)]
pub struct State<P: Inject, F: Inject, M: Moves> {
    pub parts: Parts,
    pub paging: P,
    pub files: F,
    pub(crate) moves: M,
    pub(crate) told: Tallies,
    ghost located: { BytesLocated (parts_of.shown_parts parts).life
        (parts_of.shown_parts parts).bytes
        (P.blocks paging) (F.blocks files) },
    ghost tallied: { IsTallied told },
    ghost slots_whole: { AreWhole (P.blocks paging) },
    ghost blocks_whole: { AreWhole (F.blocks files) },
}

/// The first line of a machine.
fn first_move(machine: Machine) -> Move
    ensures { result ≡ first_move machine }
{
    Move::At(
        1,
        LineKind::Machine(
            machine.frames(),
            machine.slots(),
            machine.depth(),
            machine.blocks(),
        ),
    )
}

impl<P: Inject, F: Inject, M: Moves> State<P, F, M> {
    ghost use Rattle.mm_state.specs.StateShown.{shown_state, loans};

    /// A machine at rest, whose first line has begun and is noted, over two devices that were
    /// opened with its slots and its blocks. It takes the memory of all frames, slots, blocks and
    /// requests. After an error the devices and the sink are given back as they were.
    pub fn new(
        alloc: Global,
        machine: Machine,
        paging: P,
        files: F,
        mut moves: M,
    ) -> Result<State<P, F, M>, Unmade<(P, F, M)>>
        requires slots { length (P.blocks paging) ≡ machine.slots }
        requires blocks { length (F.blocks files) ≡ machine.blocks }
        requires slots_whole { AreWhole (P.blocks paging) }
        requires blocks_whole { AreWhole (F.blocks files) }
        ensures starts { IfOk result (λ s. MachineStarts machine (M.log moves)
            (device_with (P.log paging) (P.named paging) (P.faults paging))
            (device_with (F.log files) (F.named files) (F.faults files))
            (P.blocks paging) (F.blocks files) (shown_state s)) }
        ensures devices { IfOk result (λ s. (s.paging ≡ paging) × (s.files ≡ files)) }
        ensures loans { IfOk result
            (λ s. loans s ≡ Both (Both (P.loans paging) (F.loans files)) (M.loans moves)) }
        ensures err { IfErr result (λ e. e.back ≡ (paging, files, moves)) }
    {
        match Parts::new(alloc, machine) {
            Ok(parts) => {
                moves.note(first_move(machine));
                Ok(State {
                    parts,
                    paging,
                    files,
                    moves,
                    told: Tallies::none(),
                })
            }
            Err(NoMemory) => Err(Unmade {
                back: (paging, files, moves),
            }),
        }
    }

    /// Gives the devices and the sink back as they stand.
    pub fn finish(self) -> (P, F, M)
        ensures { result ≡ (self.paging, self.files, self.moves) }
    {
        let State {
            parts: _,
            paging,
            files,
            moves,
            told: _,
        } = self;
        (paging, files, moves)
    }
}
