ghost use Rattle.std.specs.Prelude.{◌≡◌, ◌≤◌, ◌++◌, ℕ, List, Some, None, false, length, replicate, slice_get, slice_set};
ghost use Rattle.mm_types.specs.{MachineOf, Block, Frame, Key, Place, LineKind, Stored};
ghost use Rattle.mm_types.specs.declared.moves.LineKind.TheVariants as kind;
ghost use Rattle.mm_types.specs.declared.moves.Move.TheVariants as move;
ghost use Rattle.mm_move_rules.specs.{record_at, FrameLife, unstarted, IsLegal, after_move, home_at, FrameBytes, BlockBytes, zero_page, frame_page};
ghost use Rattle.mm_move_rules.specs.{bytes_at};
ghost use Rattle.mm_ram.specs.{with_page};
ghost use Rattle.mm_frame_laws.specs.{HoldsBytes, Carries, KeepsBytes, SetsBytes, IsSoiled, slots_grown, slots_written, blocks_written};

/// A line leaves the bytes of every key. One in which the paging file grows has further slots,
/// which are zero.
pub fn lines_keep_bytes()
    ensures { (l : FrameLife) (ram : FrameBytes) (slots blocks : BlockBytes) →
        HoldsBytes l ram slots blocks → (n : ℕ) (k : LineKind) → 1 ≤ l.line →
        IsLegal (move.At n k) l →
        KeepsBytes l ram slots blocks (after_move l (move.At n k)) ram
        (slots ++ replicate (slots_grown k) zero_page) blocks }
{}

/// A key that comes to be reads as zero, or as its block; one that is no more has no bytes. All
/// others keep theirs.
pub fn keys_come_and_go()
    ensures zero { (l : FrameLife) (ram : FrameBytes) (slots blocks : BlockBytes) →
        HoldsBytes l ram slots blocks → (k : Key) → IsLegal (move.Add k None) l →
        SetsBytes l ram slots blocks k (Some zero_page) (after_move l (move.Add k None)) ram }
    ensures block { (l : FrameLife) (ram : FrameBytes) (slots blocks : BlockBytes) →
        HoldsBytes l ram slots blocks → (k : Key) (b : Block) → IsLegal (move.Add k (Some b)) l →
        SetsBytes l ram slots blocks k (slice_get blocks b.0) (after_move l (move.Add k (Some b)))
        ram }
    ensures drop { (l : FrameLife) (ram : FrameBytes) (slots blocks : BlockBytes) →
        HoldsBytes l ram slots blocks → (k : Key) → IsLegal (move.Drop k) l →
        SetsBytes l ram slots blocks k None (after_move l (move.Drop k)) ram }
{}

/// A frame that is cleared, given, read into or stolen leaves the bytes of every key, where a
/// cleared frame is zeroed.
pub fn frames_are_taken()
    ensures clear { (l : FrameLife) (ram : FrameBytes) (slots blocks : BlockBytes) →
        HoldsBytes l ram slots blocks → (f : Frame) → IsLegal (move.Clear f) l →
        KeepsBytes l ram slots blocks (after_move l (move.Clear f)) (with_page ram f.0 zero_page)
        slots
        blocks }
    ensures give { (l : FrameLife) (ram : FrameBytes) (slots blocks : BlockBytes) →
        HoldsBytes l ram slots blocks → (f : Frame) (k : Key) → IsLegal (move.Give f k) l →
        KeepsBytes l ram slots blocks (after_move l (move.Give f k)) ram slots blocks }
    ensures read { (l : FrameLife) (ram : FrameBytes) (slots blocks : BlockBytes) →
        HoldsBytes l ram slots blocks → (f : Frame) (k : Key) → IsLegal (move.Read f k) l →
        KeepsBytes l ram slots blocks (after_move l (move.Read f k)) ram slots blocks }
    ensures steal { (l : FrameLife) (ram : FrameBytes) (slots blocks : BlockBytes) →
        HoldsBytes l ram slots blocks → (f : Frame) → IsLegal (move.Steal f) l →
        KeepsBytes l ram slots blocks (after_move l (move.Steal f)) ram slots blocks }
{}

/// A map, an unmap and a soil leave the bytes of every key.
pub fn places_keep_bytes()
    ensures map { (l : FrameLife) (ram : FrameBytes) (slots blocks : BlockBytes) →
        HoldsBytes l ram slots blocks → (f : Frame) (p : Place) → IsLegal (move.Map f p) l →
        KeepsBytes l ram slots blocks (after_move l (move.Map f p)) ram slots blocks }
    ensures unmap { (l : FrameLife) (ram : FrameBytes) (slots blocks : BlockBytes) →
        HoldsBytes l ram slots blocks → (p : Place) → IsLegal (move.Unmap p) l →
        KeepsBytes l ram slots blocks (after_move l (move.Unmap p)) ram slots blocks }
    ensures soil { (l : FrameLife) (ram : FrameBytes) (slots blocks : BlockBytes) →
        HoldsBytes l ram slots blocks → (f : Frame) → IsLegal (move.Soil f) l →
        KeepsBytes l ram slots blocks (after_move l (move.Soil f)) ram slots blocks }
{}

/// A write that begins, and a request that ends, leave the bytes of every key: a read brings the
/// page of the frame's backing, and a write takes the page of the frame there.
pub fn requests_keep_bytes()
    ensures write { (l : FrameLife) (ram : FrameBytes) (slots blocks : BlockBytes) →
        HoldsBytes l ram slots blocks → (f : Frame) (s : Stored) → IsLegal (move.Write f s) l →
        KeepsBytes l ram slots blocks (after_move l (move.Write f s)) ram slots blocks }
    ensures got { (l : FrameLife) (ram : FrameBytes) (slots blocks : BlockBytes) →
        HoldsBytes l ram slots blocks → (f : Frame) (page : List ℕ) → IsLegal (move.Got f) l →
        bytes_at ram slots blocks (home_at (record_at l.frames f.0).backing) ≡ Some page →
        KeepsBytes l ram slots blocks (after_move l (move.Got f)) (with_page ram f.0 page) slots
        blocks }
    ensures bad { (l : FrameLife) (ram : FrameBytes) (slots blocks : BlockBytes) →
        HoldsBytes l ram slots blocks → (f : Frame) → IsLegal (move.Bad f) l →
        KeepsBytes l ram slots blocks (after_move l (move.Bad f)) ram slots blocks }
    ensures wrote { (l : FrameLife) (ram : FrameBytes) (slots blocks : BlockBytes) →
        HoldsBytes l ram slots blocks → (f : Frame) (page : List ℕ) → IsLegal (move.Wrote f) l →
        frame_page ram f.0 ≡ Some page →
        KeepsBytes l ram slots blocks (after_move l (move.Wrote f)) ram
        (slots_written (record_at l.frames f.0).backing page slots)
        (blocks_written (record_at l.frames f.0).backing page blocks) }
    ensures lost { (l : FrameLife) (ram : FrameBytes) (slots blocks : BlockBytes) →
        HoldsBytes l ram slots blocks → (f : Frame) → IsLegal (move.Lost f) l →
        KeepsBytes l ram slots blocks (after_move l (move.Lost f)) ram slots blocks }
{}

/// A page at hand that is written is that of its key alone; a block that no key ever had is
/// nobody's.
pub fn pages_are_written()
    ensures page { (l : FrameLife) (ram : FrameBytes) (slots blocks : BlockBytes) →
        HoldsBytes l ram slots blocks → (f : Frame) (k : Key) (page : List ℕ) →
        (record_at l.frames f.0).owner ≡ Some k → IsSoiled (record_at l.frames f.0) →
        SetsBytes l ram slots blocks k (Some page) l (with_page ram f.0 page) }
    ensures block { (l : FrameLife) (ram : FrameBytes) (slots blocks : BlockBytes) →
        HoldsBytes l ram slots blocks → (b : ℕ) (page : List ℕ) → l.added b ≡ false →
        KeepsBytes l ram slots blocks l ram slots (slice_set blocks b page) }
{}

/// After its first line a machine has no key, whatever its devices hold.
pub fn machines_hold_nothing()
    ensures { (m : MachineOf) (slots blocks : BlockBytes) → length slots ≡ m.slots →
        length blocks ≡ m.blocks →
        Carries (after_move unstarted (move.At 1 (kind.Machine m.frames m.slots m.depth m.blocks)))
        (replicate m.frames None) slots blocks (λ _. None) }
{}
