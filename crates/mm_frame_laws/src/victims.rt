ghost use Rattle.std.specs.Prelude.{◌≡◌, ◌≤◌, ◌<◌, ◌+◌, ℕ, List, length, Option, Some, None, true, false, is_some};
ghost use Rattle.mm_types.specs.{Frame, Pid, Place};
ghost use Rattle.std.specs.Ordering.{nat_cmp};
ghost use Rattle.std.specs.FinMap.{FinMap};
ghost use Rattle.mm_move_rules.specs.{FrameLife, same_place, set_of, may_go, Ages, IsOldest, IsVictim};
ghost use Rattle.mm_move_laws.specs.Sound.{Sound};
ghost use Rattle.mm_move_laws.specs.{tally, residents};
ghost use Rattle.mm_working_sets.specs.{IsOldestInSet, NoneFollowsInSet};
ghost use Rattle.mm_frame_laws.specs.{SetShows, place_of_page, page_of_place, IsInSet, first_to_go, first_to_go_in, IsNextPage, PassedTo};
ghost use Rattle.mm_frame_laws.specs.{NoPageFollows, IsBest, BestBelow, takes_over};

/// Where a place may go, one page goes first of all, and one of that place's process; and no two
/// do. Where no frame is pinned each valid place may go.
pub fn one_page_goes_first()
    ensures victim { (l : FrameLife) → Sound l → (ages : Ages) (pinned : Option Frame) (p : Place) →
        may_go l pinned p ≡ true → (v : Place) × IsVictim l ages pinned v }
    ensures oldest { (l : FrameLife) → Sound l → (ages : Ages) (pinned : Option Frame) (p : Place) →
        may_go l pinned p ≡ true → (v : Place) × ((v.pid.0 ≡ p.pid.0) × IsOldest l ages pinned v) }
    ensures in_set { (l : FrameLife) → Sound l → (ages : Ages) (pid : ℕ) →
        1 ≤ residents (set_of l pid) → (v : Place) × ((v.pid.0 ≡ pid) × IsOldest l ages None v) }
    ensures unpinned { (l : FrameLife) (p : Place) → may_go l None p ≡ is_some (l.valid p) }
    ensures one_victim { (l : FrameLife) (ages : Ages) (pinned : Option Frame) (v w : Place) →
        IsVictim l ages pinned v → IsVictim l ages pinned w → v ≡ w }
    ensures one_oldest { (l : FrameLife) (ages : Ages) (pinned : Option Frame) (v w : Place) →
        v.pid.0 ≡ w.pid.0 → IsOldest l ages pinned v → IsOldest l ages pinned w → v ≡ w }
{}

/// The functions over a list that holds each valid place answer these pages, and nothing only where
/// no place may go.
pub fn first_to_go_is_the_victim()
    ensures victim { (l : FrameLife) (ages : Ages) (pinned : Option Frame) (places : List Place) →
        ((q : Place) → is_some (l.valid q) ≡ true → 1 ≤ tally (same_place q) places) → (v : Place) →
        first_to_go l ages pinned places ≡ Some v → IsVictim l ages pinned v }
    ensures none { (l : FrameLife) (ages : Ages) (pinned : Option Frame) (places : List Place) →
        ((q : Place) → is_some (l.valid q) ≡ true → 1 ≤ tally (same_place q) places) →
        first_to_go l ages pinned places ≡ None → (q : Place) → may_go l pinned q ≡ false }
    ensures oldest { (l : FrameLife) (ages : Ages) (pinned : Option Frame) (places : List Place) →
        ((q : Place) → is_some (l.valid q) ≡ true → 1 ≤ tally (same_place q) places) →
        (pid : ℕ) (v : Place) → first_to_go_in l ages pinned pid places ≡ Some v → (v.pid.0 ≡ pid) ×
        IsOldest l ages pinned v }
{}

/// The pages of a set are gone through from the oldest on, and the first that may go is the oldest
/// that may.
pub fn a_set_is_gone_through()
    ensures oldest { (l : FrameLife) (ages : Ages) (pinned : Option Frame) (after : Option Place)
        (v : Place) → PassedTo l ages pinned v.pid.0 after → IsNextPage l ages after v →
        may_go l pinned v ≡ true → IsOldest l ages pinned v }
    ensures passed { (l : FrameLife) (ages : Ages) (pinned : Option Frame) (after : Option Place)
        (v : Place) → PassedTo l ages pinned v.pid.0 after → IsNextPage l ages after v →
        may_go l pinned v ≡ false → PassedTo l ages pinned v.pid.0 (Some v) }
    ensures none { (l : FrameLife) (ages : Ages) (pinned : Option Frame) (pid : ℕ)
        (after : Option Place) → PassedTo l ages pinned pid after → NoPageFollows l ages pid after →
        (q : Place) → q.pid.0 ≡ pid → may_go l pinned q ≡ false }
{}

/// The processes are gone through from pid 1 on, and a later one takes over only where it is above
/// its minimum and the best so far is not; the best of all is the page that goes first.
pub fn processes_are_gone_through()
    ensures begins { (l : FrameLife) → Sound l → (ages : Ages) (pinned : Option Frame) →
        BestBelow l ages pinned 1 None }
    ensures same { (l : FrameLife) (ages : Ages) (pinned : Option Frame) (n : ℕ)
        (best : Option Place) → BestBelow l ages pinned n best →
        ((q : Place) → q.pid.0 ≡ n → may_go l pinned q ≡ false) →
        BestBelow l ages pinned (n + 1) best }
    ensures kept { (l : FrameLife) (ages : Ages) (pinned : Option Frame) (n : ℕ) (v w : Place) →
        IsBest l ages pinned n v → w.pid.0 ≡ n → takes_over l n (Some v) ≡ false →
        IsBest l ages pinned (n + 1) v }
    ensures now { (l : FrameLife) (ages : Ages) (pinned : Option Frame) (n : ℕ)
        (best : Option Place) (w : Place) → BestBelow l ages pinned n best → w.pid.0 ≡ n →
        IsOldest l ages pinned w → takes_over l n best ≡ true → IsBest l ages pinned (n + 1) w }
    ensures victim { (l : FrameLife) → Sound l →
        (ages : Ages) (pinned : Option Frame) (n : ℕ) (v : Place) → length l.sets < n →
        IsBest l ages pinned n v → IsVictim l ages pinned v }
    ensures none { (l : FrameLife) → Sound l → (ages : Ages) (pinned : Option Frame) (n : ℕ) →
        length l.sets < n → BestBelow l ages pinned n None → (q : Place) →
        may_go l pinned q ≡ false }
    ensures process { (l : FrameLife) → Sound l → (q : Place) → is_some (l.valid q) ≡ true →
        (1 ≤ q.pid.0) × (q.pid.0 ≤ length l.sets) }
{}

/// The order of a working set is that of its process's places: the page that `mm_working_sets` answers next
/// is the place that goes next, and where it answers none no place follows.
pub fn sets_go_by_age()
    ensures next { (l : FrameLife) (ages : Ages) (pid : Pid) (set : FinMap nat_cmp ℕ) →
        SetShows l ages pid set → (after : Option Place) → IsInSet l pid after → (v : ℕ) →
        IsOldestInSet set (page_of_place after) v → IsNextPage l ages after (place_of_page pid v) }
    ensures none { (l : FrameLife) (ages : Ages) (pid : Pid) (set : FinMap nat_cmp ℕ) →
        SetShows l ages pid set → (after : Option Place) → IsInSet l pid after →
        NoneFollowsInSet set (page_of_place after) → NoPageFollows l ages pid.0 after }
{}
