use mm_io::MemSink;
use mm_log_writer::{Moves, Recorder, spell};
use mm_text::LineBuf;
use mm_types::{Frame, LineKind, Move};
use std::test::Fail;

#[test]
fn a_recorder_stops_at_a_failure(rt: HostRuntime) -> Result<(), Fail> {
    let fails = vec![in rt.alloc(); 2u32]?;
    let mut sink = MemSink::new(rt.alloc(), 100, fails).map_err(|_| "no room")?;
    let mut recorder = Recorder::new(&mut sink);
    recorder.note(Move::Clear(Frame(0)));
    assert_eq!(rt; recorder.failed(), false);
    recorder.note(Move::Clear(Frame(1)));
    assert_eq!(rt; recorder.failed(), true);
    recorder.note(Move::Clear(Frame(2)));
    let _sink = recorder.finish();
    assert_eq!(rt; sink.bytes(), b"clear 0\n".as_slice());
    Ok(())
}

#[test]
fn the_longest_line(rt: HostRuntime) {
    let most = u32::MAX;
    let mut line = LineBuf::new();
    assert!(rt; line.is_empty());
    spell(
        &Move::At(most, LineKind::Machine(most, most, most, most)),
        &mut line,
    );
    assert_eq!(rt; line.len(), 66);
}
