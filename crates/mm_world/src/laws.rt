ghost use Rattle.std.specs.Prelude.{◌≡◌, ◌≤◌, ◌%◌, ℕ, Bool, List, Option, Some, true, false, is_some, slice_get};
ghost use Rattle.mm_types.specs.declared.answers.Answer.TheVariants as answer;
ghost use Rattle.mm_types.specs.{Event, Key, Pid, range_of, holds_page, are_user_pages, granule_pages, MachineOf, IsMachine, Text};
ghost use Rattle.mm_types.specs.declared.events.Event.TheVariants as line;
ghost use Rattle.mm_world.specs.{ProcessOf, RegionOf, Page, filled, pages_of, process_of, charge, limit, Committed, committed_at, content_of, key_of};
ghost use Rattle.mm_world.specs.{private_key, alloc, Tables, tables_of, tables_outcome, blank, bytes_in, world_with, AcrossBytes, AcrossFile, free};
ghost use Rattle.mm_world.specs.{new_process, exit, new_file, take_fail, tell_charge, grow, protect, query, create, create_file, open_section, close};
ghost use Rattle.mm_world.specs.{map_view, unmap, flush, Attempt, access, step, world_after, first_world, stack, probe, watch, reset_watch, Spaces};
ghost use Rattle.mm_world.specs.{flag_of, FlagTold, GivesFlagged, writes_of, writes_after, PagesOf, is_region_of, line_ends, are_stacked, LineLeaves};
ghost use Rattle.mm_world.specs.{HasCommittedRow, Reached, LimitDecides, is_charging_line, is_limit_refusal, more_slots};
ghost use Rattle.mm_world.specs.World.{World};
ghost use Rattle.mm_world.specs.Report.{Report};
ghost use Rattle.mm_world.specs.WellFormed.{WellFormed};

/// The answer and the old world determine the new one.
pub fn answers_determine_worlds()
    ensures { (w : World) (e : Event) (before after : Report) →
        (step w e before after).world ≡ world_after w e (step w e before after).answer }
{}

/// An answer other than `ok` leaves the world as it was, but for a guard turned off and for what a
/// thread keeps.
pub fn refusals_change_nothing()
    ensures { (w : World) (e : Event) (before after : Report) →
        LineLeaves w e (step w e before after) }
{}

/// An access leaves the charge as it is.
pub fn accesses_keep_the_charge()
    ensures { (w : World) (pid addr : ℕ) (what : Attempt) →
        charge (access w pid addr what).world ≡ charge w }
{}

/// The charge is at most the limit in each world that lines reach.
pub fn charge_stays_within_the_limit()
    ensures { (m : MachineOf) (w : World) → Reached m w → charge w ≤ limit w }
{}

/// ERROR_COMMITMENT_LIMIT comes exactly where no other refusal stands and the charge of the world
/// that the call would make passes the limit; and no line but these five is answered so.
pub fn commitment_is_refused_exactly_past_the_limit()
    ensures alloc { (fill : ℕ → Page) (w : World) (pid addr size type prot : ℕ) →
        LimitDecides w (alloc fill w pid addr size type prot)
        (λ n. alloc fill (more_slots w n) pid addr size type prot) }
    ensures protect { (w : World) (pid addr size prot : ℕ) →
        LimitDecides w (protect w pid addr size prot)
        (λ n. protect (more_slots w n) pid addr size prot) }
    ensures create { (fill : ℕ → Page) (w : World) (pid size flags : ℕ) (name : Option Text) →
        LimitDecides w (create fill w pid size flags name)
        (λ n. create fill (more_slots w n) pid size flags name) }
    ensures map { (w : World) (pid handle access offset len addr : ℕ) →
        LimitDecides w (map_view w pid handle access offset len addr)
        (λ n. map_view (more_slots w n) pid handle access offset len addr) }
    ensures stack { (fill : ℕ → Page) (w : World) (tid pid reserve commit : ℕ) →
        LimitDecides w (stack fill w tid pid reserve commit)
        (λ n. stack fill (more_slots w n) tid pid reserve commit) }
    ensures others { (w : World) (e : Event) (before after : Report) → is_charging_line e ≡ false →
        is_limit_refusal (step w e before after).answer ≡ false }
{}

/// The key of each committed row is live, and each live private key has a committed row, whose
/// bytes are the key's.
pub fn keys_are_those_of_committed_rows()
    ensures live { (w : World) (pid page : ℕ) (p : ProcessOf Page) (c : Committed Page) →
        process_of w pid ≡ Some p → committed_at w p.regions page ≡ Some c →
        is_some (content_of w (key_of pid page c.home)) ≡ true }
    ensures committed { (w : World) (pid page : ℕ) (bytes : Page) →
        content_of w (private_key pid page) ≡ Some bytes → HasCommittedRow w pid page bytes }
{}

/// A world is well formed after each line.
pub fn worlds_are_well_formed()
    ensures kept { (w : World) (e : Event) (before after : Report) → WellFormed w →
        WellFormed (step w e before after).world }
    ensures reached { (m : MachineOf) (w : World) → IsMachine m → Reached m w → WellFormed w }
{}

/// A page that is flagged as written or not after a line has the flag that the line and its answer
/// tell: not written where the line began its region; else from the flag that it had before.
pub fn flags_change_as_told()
    ensures { (w : World) (e : Event) (before after : Report) (pid page : ℕ) (flag : Bool) →
        Spaces w → flag_of (step w e before after).world pid page ≡ Some flag →
        FlagTold w e (step w e before after).answer pid page flag }
{}

/// A `watch` that is answered with pages gives the lowest flagged pages of its range, each page of
/// which is watched.
pub fn watches_give_flagged_pages()
    ensures { (w : World) (pid : Pid) (unwrites : Bool) (addr size count : ℕ) (addresses : List ℕ)
        (before after : Report) → Spaces w →
        (step w (line.Watch pid unwrites addr size count) before after).answer ≡
        answer.Watched addresses → GivesFlagged w pid.0 (range_of addr size) count addresses }
{}

/// The writes that threads keep change as lines and their answers tell.
pub fn answers_tell_kept_writes()
    ensures { (w : World) (e : Event) (before after : Report) →
        writes_of (step w e before after).world ≡
        writes_after (writes_of w) e (step w e before after).answer }
{}

/// A private region of a process stays one, with its base and its pages, and watched if it was,
/// over each line that does not release it or end its process.
pub fn private_regions_stay()
    ensures { (w : World) (e : Event) (before after : Report) (pages : PagesOf) →
        line_ends e (step w e before after).answer pages ≡ false → is_region_of w pages ≡ true →
        is_region_of (step w e before after).world pages ≡ true }
{}

/// Each stack has a private region of a process that lives, with its base and its guard page, in
/// the first world and after each line.
pub fn stacks_stay_private_regions()
    ensures kept { (w : World) (e : Event) (before after : Report) → are_stacked w ≡ true →
        are_stacked (step w e before after).world ≡ true }
    ensures first { (m : MachineOf) → are_stacked {B = Page} (first_world m) ≡ true }
{}

/// The regions of a process share no page, and lie on granules within the user pages.
pub fn regions_are_disjoint()
    ensures apart { (w : World) (pid page i j : ℕ) (p : ProcessOf Page) (a b : RegionOf Page) →
        WellFormed w → process_of w pid ≡ Some p → slice_get p.regions i ≡ Some a →
        slice_get p.regions j ≡ Some b → holds_page (pages_of a) page ≡ true →
        holds_page (pages_of b) page ≡ true → i ≡ j }
    ensures placed { (w : World) (pid i : ℕ) (p : ProcessOf Page) (r : RegionOf Page) →
        WellFormed w → process_of w pid ≡ Some p → slice_get p.regions i ≡ Some r →
        (r.base % granule_pages ≡ 0) × (are_user_pages (pages_of r) ≡ true) }
{}

/// No call looks at what a page holds: a call on the tables of a world gives the answer of the call
/// on the world, and the tables of its new world.
pub fn calls_do_not_look_at_bytes()
    ensures alloc { (w : World) (pid addr size type prot : ℕ) →
        alloc blank (tables_of w) pid addr size type prot ≡
        tables_outcome (alloc filled w pid addr size type prot) }
    ensures free { (w : World) (pid addr size type : ℕ) →
        free (tables_of w) pid addr size type ≡ tables_outcome (free w pid addr size type) }
    ensures protect { (w : World) (pid addr size prot : ℕ) →
        protect (tables_of w) pid addr size prot ≡ tables_outcome (protect w pid addr size prot) }
    ensures query { (w : World) (pid addr : ℕ) →
        query (tables_of w) pid addr ≡ tables_outcome (query w pid addr) }
    ensures create { (w : World) (pid size flags : ℕ) (name : Option Text) →
        create blank (tables_of w) pid size flags name ≡
        tables_outcome (create filled w pid size flags name) }
    ensures create_file { (w : World) (pid : ℕ) (file : Text) (flags : ℕ) (name : Option Text) →
        create_file (tables_of w) pid file flags name ≡
        tables_outcome (create_file w pid file flags name) }
    ensures open { (w : World) (pid : ℕ) (name : Text) →
        open_section (tables_of w) pid name ≡ tables_outcome (open_section w pid name) }
    ensures close { (w : World) (pid handle : ℕ) →
        close (tables_of w) pid handle ≡ tables_outcome (close w pid handle) }
    ensures map { (w : World) (pid handle access offset len addr : ℕ) →
        map_view (tables_of w) pid handle access offset len addr ≡
        tables_outcome (map_view w pid handle access offset len addr) }
    ensures unmap { (w : World) (pid addr : ℕ) →
        unmap (tables_of w) pid addr ≡ tables_outcome (unmap w pid addr) }
    ensures flush { (w : World) (pid addr size : ℕ) →
        flush (tables_of w) pid addr size ≡ tables_outcome (flush w pid addr size) }
    ensures new_process { (w : World) → new_process (tables_of w) ≡ tables_outcome (new_process w) }
    ensures exit { (w : World) (pid : ℕ) → exit (tables_of w) pid ≡ tables_outcome (exit w pid) }
    ensures new_file { (w : World) (name : Text) (pages byte : ℕ) →
        new_file blank (tables_of w) name pages byte ≡
        tables_outcome (new_file filled w name pages byte) }
    ensures take_fail { (w : World) → take_fail (tables_of w) ≡ tables_outcome (take_fail w) }
    ensures tell_charge { (w : World) → tell_charge (tables_of w) ≡ tables_outcome (tell_charge w) }
    ensures grow { (w : World) (n : ℕ) → grow (tables_of w) n ≡ tables_outcome (grow w n) }
    ensures stack { (w : World) (tid pid reserve commit : ℕ) →
        stack blank (tables_of w) tid pid reserve commit ≡
        tables_outcome (stack filled w tid pid reserve commit) }
    ensures watch { (w : World) (pid : ℕ) (unwrites : Bool) (addr size count : ℕ) →
        watch (tables_of w) pid unwrites addr size count ≡
        tables_outcome (watch w pid unwrites addr size count) }
    ensures reset_watch { (w : World) (pid addr size : ℕ) →
        reset_watch (tables_of w) pid addr size ≡ tables_outcome (reset_watch w pid addr size) }
    ensures probe { (w : World) (tid addr : ℕ) →
        probe blank (tables_of w) tid addr ≡ tables_outcome (probe filled w tid addr) }
{}

/// A world is its tables and the bytes of its keys.
pub fn worlds_are_tables_and_bytes()
    ensures world { (w : World) → Spaces w → world_with (tables_of w) (bytes_in w) ≡ w }
    ensures tables { (t : Tables) (bytes : Key → Page) → tables_of (world_with t bytes) ≡ t }
{}

/// A call on a world is the call on its tables, and bytes that stay: a key that is live before and
/// after keeps its bytes, and one that comes to be reads as zero.
pub fn calls_keep_bytes()
    ensures alloc { (t : Tables) (bytes : Key → Page) → Spaces t → (pid addr size type prot : ℕ) →
        AcrossBytes t bytes (alloc blank t pid addr size type prot)
        (alloc filled (world_with t bytes) pid addr size type prot) }
    ensures free { (t : Tables) (bytes : Key → Page) → Spaces t → (pid addr size type : ℕ) →
        AcrossBytes t bytes (free t pid addr size type)
        (free (world_with t bytes) pid addr size type) }
    ensures protect { (t : Tables) (bytes : Key → Page) → Spaces t → (pid addr size prot : ℕ) →
        AcrossBytes t bytes (protect t pid addr size prot)
        (protect (world_with t bytes) pid addr size prot) }
    ensures query { (t : Tables) (bytes : Key → Page) → Spaces t → (pid addr : ℕ) →
        AcrossBytes t bytes (query t pid addr) (query (world_with t bytes) pid addr) }
    ensures create { (t : Tables) (bytes : Key → Page) → Spaces t →
        (pid size flags : ℕ) (name : Option Text) →
        AcrossBytes t bytes (create blank t pid size flags name)
        (create filled (world_with t bytes) pid size flags name) }
    ensures create_file { (t : Tables) (bytes : Key → Page) → Spaces t →
        (pid : ℕ) (file : Text) (flags : ℕ) (name : Option Text) →
        AcrossBytes t bytes (create_file t pid file flags name)
        (create_file (world_with t bytes) pid file flags name) }
    ensures open { (t : Tables) (bytes : Key → Page) → Spaces t → (pid : ℕ) (name : Text) →
        AcrossBytes t bytes (open_section t pid name) (open_section (world_with t bytes) pid name) }
    ensures close { (t : Tables) (bytes : Key → Page) → Spaces t → (pid handle : ℕ) →
        AcrossBytes t bytes (close t pid handle) (close (world_with t bytes) pid handle) }
    ensures map { (t : Tables) (bytes : Key → Page) → Spaces t →
        (pid handle access offset len addr : ℕ) →
        AcrossBytes t bytes (map_view t pid handle access offset len addr)
        (map_view (world_with t bytes) pid handle access offset len addr) }
    ensures unmap { (t : Tables) (bytes : Key → Page) → Spaces t → (pid addr : ℕ) →
        AcrossBytes t bytes (unmap t pid addr) (unmap (world_with t bytes) pid addr) }
    ensures flush { (t : Tables) (bytes : Key → Page) → Spaces t → (pid addr size : ℕ) →
        AcrossBytes t bytes (flush t pid addr size) (flush (world_with t bytes) pid addr size) }
    ensures new_process { (t : Tables) (bytes : Key → Page) → Spaces t →
        AcrossBytes t bytes (new_process t) (new_process (world_with t bytes)) }
    ensures exit { (t : Tables) (bytes : Key → Page) → Spaces t → (pid : ℕ) →
        AcrossBytes t bytes (exit t pid) (exit (world_with t bytes) pid) }
    ensures take_fail { (t : Tables) (bytes : Key → Page) → Spaces t →
        AcrossBytes t bytes (take_fail t) (take_fail (world_with t bytes)) }
    ensures grow { (t : Tables) (bytes : Key → Page) → Spaces t → (n : ℕ) →
        AcrossBytes t bytes (grow t n) (grow (world_with t bytes) n) }
    ensures stack { (t : Tables) (bytes : Key → Page) → Spaces t → (tid pid reserve commit : ℕ) →
        AcrossBytes t bytes (stack blank t tid pid reserve commit)
        (stack filled (world_with t bytes) tid pid reserve commit) }
    ensures file { (t : Tables) (bytes : Key → Page) → Spaces t → (name : Text) (pages byte : ℕ) →
        AcrossFile byte t bytes (new_file blank t name pages byte)
        (new_file filled (world_with t bytes) name pages byte) }
    ensures watch { (t : Tables) (bytes : Key → Page) → Spaces t →
        (pid : ℕ) (unwrites : Bool) (addr size count : ℕ) →
        AcrossBytes t bytes (watch t pid unwrites addr size count)
        (watch (world_with t bytes) pid unwrites addr size count) }
    ensures reset_watch { (t : Tables) (bytes : Key → Page) → Spaces t → (pid addr size : ℕ) →
        AcrossBytes t bytes (reset_watch t pid addr size)
        (reset_watch (world_with t bytes) pid addr size) }
    ensures probe { (t : Tables) (bytes : Key → Page) → Spaces t → (tid addr : ℕ) →
        AcrossBytes t bytes (probe blank t tid addr) (probe filled (world_with t bytes) tid addr) }
{}
