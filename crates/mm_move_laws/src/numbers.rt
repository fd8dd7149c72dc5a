ghost use Rattle.std.specs.Prelude.{◌≡◌, ◌⊎◌, ◌≤◌, ◌<◌, ℕ, Bool, List, Some, None, true, false, not, ◌+◌, nat_lt, length, count_by, slice_set};
ghost use Rattle.std.specs.List.{list_any};
ghost use Rattle.mm_types.specs.{IsMachine, Pid, Vpn, Place, Move};
ghost use Rattle.mm_types.specs.declared.numbers.Key.TheVariants.{Private};
ghost use Rattle.mm_move_rules.specs.{ResidentSet, record_at, FrameLife, set_of, unstarted, IsLegal, is_lowest, is_touch, after_move, Replays};
ghost use Rattle.mm_move_laws.specs.{ReachedByMoves, sum_to, CountsPlaces, valid_places, maxima_in, CountsHomes, IsLowest};
ghost use Rattle.mm_move_laws.specs.Sound.{Sound};

/// From line 1 on the machine's numbers are in range, and an access, plain or of a thread, comes
/// after line 1. Before line 1 nothing has happened.
pub fn machines_are_in_range()
    ensures machine { (l : FrameLife) → ReachedByMoves l → 1 ≤ l.line → IsMachine l.machine }
    ensures begun { (l : FrameLife) → ReachedByMoves l → is_touch l.kind ≡ true → 1 ≤ l.line }
    ensures started { (l : FrameLife) → ReachedByMoves l → (l ≡ unstarted) ⊎ (1 ≤ l.line) }
{}

/// What follows a state that a log reaches is reached too.
pub fn logs_go_on()
    ensures start { ReachedByMoves unstarted }
    ensures one { (x : Move) (l : FrameLife) → ReachedByMoves l → IsLegal x l →
        ReachedByMoves (after_move l x) }
    ensures along { (moves : List Move) (l m : FrameLife) → ReachedByMoves l → Replays moves l m →
        ReachedByMoves m }
{}

/// Each pid from 1 up to the number of processes, at most 64, has a working set, and no other pid
/// has one or a valid place.
pub fn sets_are_of_processes()
    ensures most { (l : FrameLife) → ReachedByMoves l → length l.sets ≤ 64 }
    ensures has { (l : FrameLife) (pid : ℕ) → 1 ≤ pid → pid ≤ length l.sets → (s : ResidentSet) ×
        (set_of l pid ≡ Some s) }
    ensures low { (l : FrameLife) (pid : ℕ) (s : ResidentSet) → set_of l pid ≡ Some s → 1 ≤ pid }
    ensures within { (l : FrameLife) (pid : ℕ) (s : ResidentSet) → set_of l pid ≡ Some s →
        pid ≤ length l.sets }
    ensures nowhere { (l : FrameLife) → Sound l → (p : Place) → set_of l p.pid.0 ≡ None →
        l.valid p ≡ None }
{}

/// The valid places are as many as the working sets say, and as the shares of all frames. So a
/// frame has at most so many shares, and where no working set has room for more than 65,536 pages,
/// at most 64 times that. A private page has one at most.
pub fn shares_are_within_the_sets()
    ensures places { (l : FrameLife) → Sound l → (c : CountsPlaces l) →
        length c.places ≡ valid_places l }
    ensures shares { (l : FrameLife) → Sound l →
        sum_to (λ f. (record_at l.frames f).shares) l.machine.frames ≡ valid_places l }
    ensures share { (l : FrameLife) → Sound l → (f : ℕ) →
        (record_at l.frames f).shares ≤ valid_places l }
    ensures room { (l : FrameLife) → Sound l → valid_places l ≤ maxima_in l.sets }
    ensures most { (l : FrameLife) → ReachedByMoves l →
        ((pid : ℕ) (s : ResidentSet) → set_of l pid ≡ Some s → s.max ≤ 65536) → (f : ℕ) →
        (record_at l.frames f).shares ≤ 4194304 }
    ensures private { (l : FrameLife) → Sound l → (f : ℕ) (p : Pid) (v : Vpn) →
        (record_at l.frames f).owner ≡ Some (Private p v) → (record_at l.frames f).shares ≤ 1 }
{}

/// The page-file keys, counted by where each stands, and the taken slots, counted by what holds
/// each.
pub fn keys_and_slots_are_counted()
    ensures homes { (l : FrameLife) → Sound l → CountsHomes l }
    ensures slots { (free : List Bool) → count_by (λ b. b) free + count_by not free ≡ length free }
{}

/// The lowest free slot is the one that is free and has no free one below it. There is one exactly
/// where some slot is free, and when it is taken one fewer is free.
pub fn lowest_slots_are_free()
    ensures is { (free : List Bool) (s : ℕ) → is_lowest s free ≡ true → IsLowest free s }
    ensures back { (free : List Bool) (s : ℕ) → IsLowest free s → is_lowest s free ≡ true }
    ensures one { (free : List Bool) (s t : ℕ) → is_lowest s free ≡ true → is_lowest t free ≡ true →
        s ≡ t }
    ensures some { (free : List Bool) → list_any (λ b. b) free ≡ true → (s : ℕ) ×
        (is_lowest s free ≡ true) }
    ensures none { (free : List Bool) → list_any (λ b. b) free ≡ false → (s : ℕ) →
        is_lowest s free ≡ false }
    ensures taken { (free : List Bool) (s : ℕ) → is_lowest s free ≡ true →
        count_by (λ b. b) (slice_set free s false) + 1 ≡ count_by (λ b. b) free }
    ensures counted { (free : List Bool) →
        nat_lt 0 (count_by (λ b. b) free) ≡ list_any (λ b. b) free }
{}
