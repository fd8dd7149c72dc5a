ghost use Rattle.std.specs.Prelude.{◌≡◌, true, Option, List, option_map};
ghost use Rattle.std.specs.List.{list_all};
ghost use Rattle.mm_types.specs.{Move};
ghost use Rattle.mm_move_rules.specs.{FrameLife, counts_of_log};
ghost use Rattle.mm_move_classes.specs.{Class, MarksOf, class_of, classes, CountsAgree, IsLog, is_plain_in_html, log_data, word_of, word_of_move, SaysTheState};
ghost use Rattle.mm_move_classes.specs.{code_of};
ghost use Rattle.mm_move_laws.specs.Sound.{Sound};

/// Each move but `at` has one class, and it is one of its own word: no `map` is a hard fault.
#[tactic(auto, using(crate::proofs::Fits::word_fits))]
pub fn moves_have_classes_of_their_word()
    ensures { (l : FrameLife) (v : MarksOf) (before : Option Move) (m : Move) (after : Option Move)
        → option_map word_of (class_of l v before m after) ≡ word_of_move m }
{}

/// The counts of a log are sums of numbers of its classes: zero fills, hard faults, soft faults,
/// steals and write-outs.
pub fn classes_sum_to_counts()
    ensures { (moves : List Move) → CountsAgree (classes moves) (counts_of_log moves) }
{}

/// No two classes have one code.
#[tactic(auto, using(crate::proofs::Codes::codes_tell))]
pub fn codes_tell_classes()
    ensures { (a b : Class) → code_of a ≡ code_of b → a ≡ b }
{}

/// What a class says of the state in which its move is legal: a hard fault is read from where it
/// says, a soft fault finds its page on the list that it says, a replaced page leaves a full
/// working set, and where a page is trimmed for want of frames, zeroed, free and standby are
/// empty.
pub fn classes_tell_the_state()
    ensures { (l : FrameLife) → Sound l → SaysTheState l }
{}

/// No byte of a log's data is `<` or `&`, so it can stand in a page of HTML as it is.
pub fn data_is_plain()
    ensures { (moves : List Move) → list_all is_plain_in_html (log_data moves) ≡ true }
{}

/// From the data of a log that replays the log can be read back: two such logs with the same data
/// are the same.
pub fn data_tells_all()
    ensures { (a b : List Move) → IsLog a → IsLog b → log_data a ≡ log_data b → a ≡ b }
{}
