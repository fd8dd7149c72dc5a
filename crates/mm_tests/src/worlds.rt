ghost use Rattle.std.specs.Prelude.{◌≡◌, ◌≤◌, ◌+◌, false, [], OnOk, replicate};
ghost use Rattle.mm_devices.specs.{empty_block};
ghost use Rattle.mm_store.specs.{IsNew};
ghost use Rattle.mm_dispatch.specs.{line_number};
ghost use Rattle.mm_tests.specs.Behind.{small_machine};

use crate::changes::{Change, change_world};
use crate::lines::{Stopped, opened, read_line};
use mm_devices::{Inject, Injected, MemBlocks};
use mm_dispatch::World;
use mm_io::MemSink;
use mm_log_writer::{Moves, Recorder};
use mm_pager::Pager;
use mm_state::State;
use mm_store::PageStore;
use mm_types::Machine;
use std::alloc::Global;
use std::test::Fail;

/// The lines of a scene after `machine 6 8 1 1`, each with its answer.
type Lines = &'static [(&'static str, &'static str)];

/// A byte of a valid, modified page is changed in its frame before line 5.
const VALID: Lines = &[
    ("process 0 8", "ok 1"),
    ("alloc 1 0 1 0x3000 0x04", "ok 0x00010000"),
    ("write 1 0x10000 5A5A", "ok"),
    ("read 1 0x10000 2", "ok 775A"),
];

/// A byte of a page that was trimmed is changed in its frame before line 6.
const TRIMMED: Lines = &[
    ("process 0 8", "ok 1"),
    ("alloc 1 0 1 0x3000 0x04", "ok 0x00010000"),
    ("write 1 0x10000 5A5A", "ok"),
    ("trim 1 1", "ok"),
    ("read 1 0x10000 2", "ok 775A"),
];

/// A page goes to its slot and loses its frame; the slot is changed on the paging device before
/// line 14.
const PUT_OUT: Lines = &[
    ("process 0 8", "ok 1"),
    ("alloc 1 0 0x7000 0x3000 0x04", "ok 0x00010000"),
    ("write 1 0x10000 5A5A", "ok"),
    ("trim 1 1", "ok"),
    ("writer 1", "ok"),
    ("io 1", "ok"),
    ("write 1 0x11000 01", "ok"),
    ("write 1 0x12000 02", "ok"),
    ("write 1 0x13000 03", "ok"),
    ("write 1 0x14000 04", "ok"),
    ("write 1 0x15000 05", "ok"),
    ("write 1 0x16000 06", "ok"),
    ("read 1 0x10000 2", "ok 7777"),
];

/// A file's page has no frame yet; its block is changed on the device of files before line 6. It is
/// read in, and copied.
const NOT_READ: Lines = &[
    ("file d 1 65", "ok"),
    ("process 0 8", "ok 1"),
    ("createfile 1 d 0x04 -", "ok 4 0"),
    ("map 1 4 1 0 0 0", "ok 0x00010000"),
    ("read 1 0x10000 2", "ok 7777"),
    ("write 1 0x10001 58", "ok"),
    ("read 1 0x10000 3", "ok 775877"),
];

/// A line, before which the change is made where it is the one that is named.
fn change_or_read<P: Inject, F: Inject, M: Moves>(
    alloc: Global,
    world: &mut World<Pager<State<P, F, M>>>,
    n: u32,
    line: (&str, &str),
    scene: (u32, Change),
) -> Result<(), Stopped>
    requires next { n ≡ line_number world.old + 1 }
    requires few { n ≤ 1000000 }
    requires ready { world.old.spent ≡ false }
    ensures line { OnOk result (line_number world.new ≡ n) }
    ensures ready { OnOk result (world.new.spent ≡ false) }
{
    if n == scene.0 && !change_world(world, scene.1) {
        return Err(Stopped::Change);
    }
    read_line(alloc, world, n, line.0.as_bytes(), line.1.as_bytes())
}

/// The lines of a scene, over a world in which the first line was decided.
fn all_lines<P: Inject, F: Inject, M: Moves>(
    alloc: Global,
    world: &mut World<Pager<State<P, F, M>>>,
    lines: &[(&str, &str)],
    scene: (u32, Change),
) -> Result<(), Stopped>
    requires first { line_number world.old ≡ 1 }
    requires ready { world.old.spent ≡ false }
{
    let mut rest = lines;
    for n in 2..64 {
        let [line, behind @ ..] = rest else {
            return Ok(());
        };
        change_or_read(alloc, world, n, *line, scene)?;
        rest = behind;
    }
    Err(Stopped::Long)
}

/// A new world over a new store.
fn first<G: PageStore>(alloc: Global, pages: G) -> World<G>
    requires { IsNew small_machine (G.contents pages) (G.store pages) }
    ensures line { line_number result ≡ 1 }
    ensures ready { result.spent ≡ false }
{
    World::new(alloc, Machine::new(6, 8, 1, 1), pages)
}

/// A scene over what pages, files and moves go to, before anything was asked of them.
fn over_new<P: Inject + Drop, F: Inject + Drop, M: Moves + Drop>(
    alloc: Global,
    paging: P,
    files: F,
    moves: M,
    lines: &[(&str, &str)],
    scene: (u32, Change),
) -> Result<(), Stopped>
    requires slots { P.blocks paging ≡ replicate 8 empty_block }
    requires blocks { F.blocks files ≡ replicate 1 empty_block }
    requires none_named { P.named paging ≡ [] }
    requires no_file_named { F.named files ≡ [] }
{
    let machine = Machine::new(6, 8, 1, 1);
    match State::new(alloc, machine, paging, files, moves) {
        Ok(state) => {
            let store = Pager::over(state);
            let mut world = first(alloc, store);
            let gone = all_lines(alloc, &mut world, lines, scene);
            let _devices = world.finish().finish().finish();
            gone
        }
        Err(_) => Err(Stopped::Memory),
    }
}

/// A scene over devices that were opened.
fn over_devices<'a>(
    alloc: Global,
    paging: &'a mut MemBlocks,
    files: &'a mut MemBlocks,
    sink: &'a mut MemSink,
    lines: &[(&str, &str)],
    scene: (u32, Change),
) -> Result<(), Stopped>
    requires slots { paging.old.blocks ≡ replicate 8 empty_block }
    requires blocks { files.old.blocks ≡ replicate 1 empty_block }
{
    let paging = Injected::new(paging);
    let files = Injected::new(files);
    let moves = Recorder::new(sink);
    over_new(alloc, paging, files, moves, lines, scene)
}

/// A scene, line by line.
fn go_through(alloc: Global, lines: &[(&str, &str)], scene: (u32, Change)) -> Result<(), Stopped> {
    let mut paging = opened(alloc, 8)?;
    let mut files = opened(alloc, 1)?;
    let Ok(mut sink) = MemSink::new(alloc, 4000, Vec::new(alloc)) else {
        return Err(Stopped::Memory);
    };
    over_devices(alloc, &mut paging, &mut files, &mut sink, lines, scene)
}

/// No layer keeps bytes beside the frames and the devices: what is changed there, behind the world,
/// is what a line reads.
#[test]
fn bytes_changed_behind_a_world_are_read(rt: HostRuntime) -> Result<(), Fail> {
    let scenes = [
        (VALID, 5, Change::Frame),
        (TRIMMED, 6, Change::Frame),
        (PUT_OUT, 14, Change::Slot),
        (NOT_READ, 6, Change::Block),
    ];
    for (lines, n, change) in scenes {
        assert_eq!(rt; go_through(rt.alloc(), lines, (n, change)), Ok(()));
    }
    Ok(())
}
