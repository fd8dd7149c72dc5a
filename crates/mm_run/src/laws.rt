ghost use Rattle.std.specs.Prelude.{◌≡◌, ◌++◌, ◌∷◌, [], List};
ghost use Rattle.mm_move_rules.specs.{counts_of_log};
ghost use Rattle.mm_run.specs.{Outset, NotBegun, DecidedLine, AreAnswered, answered_lines, GivesWritten};
ghost use Rattle.mm_run.specs.{GoesAlike, RunsAlike, StageStands, last_stage, moves_of};

/// Each `watch` of a run that was answered with pages (GetWriteWatch) gave exactly those of its
/// range that are written by the lines before it and their answers: the lowest ones, at most as
/// many as it asked for.
pub fn watches_give_written_pages()
    ensures { (o : Outset) (lines : List DecidedLine) → AreAnswered 0 (NotBegun o) lines
        → (before after : List DecidedLine) (l : DecidedLine) → before ++ l ∷ after ≡ lines
        → GivesWritten (answered_lines before) l.event l.answer }
{}

/// After each line of a run regions are laid out, handles have numbers of 32 bits, the keys that
/// live in the replay are the world's, and its state is sound: what `lines_have_one_log` asks of a
/// world and a replay.
pub fn stages_of_runs_stand()
    ensures { (o : Outset) (lines : List DecidedLine) → AreAnswered 0 (NotBegun o) lines
        → StageStands (last_stage (NotBegun o) lines) }
{}

/// Where two runs come to the same stage, by whatever lines, and the same line goes on in both with
/// the same answer, it makes the same moves in both: an access or a `flush` over devices that
/// answer alike, and any other line.
pub fn lines_of_runs_have_one_log()
    ensures { (o q : Outset) (before others : List DecidedLine) (l m : DecidedLine)
        → AreAnswered 0 (NotBegun o) (before ++ l ∷ []) → AreAnswered 0 (NotBegun q) (others ++ m ∷ [])
        → GoesAlike l m → m.moves ≡ l.moves }
{}

/// A script has one log. Two runs from their first lines on, of the same lines with the same
/// answers, make the same moves in the same order, if device calls in accesses and in `flush` lines
/// end alike. So the counts of the log are the same too: hard faults, soft faults, write-outs.
pub fn scripts_have_one_log()
    ensures moves { (o q : Outset) (lines others : List DecidedLine) → AreAnswered 0 (NotBegun o) lines
        → AreAnswered 0 (NotBegun q) others → RunsAlike lines others
        → moves_of others ≡ moves_of lines }
    ensures counts { (o q : Outset) (lines others : List DecidedLine) → AreAnswered 0 (NotBegun o) lines
        → AreAnswered 0 (NotBegun q) others → RunsAlike lines others
        → counts_of_log (moves_of others) ≡ counts_of_log (moves_of lines) }
{}
