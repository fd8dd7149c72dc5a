ghost use Rattle.std.specs.Prelude.{◌≡◌, ◌≢◌, ◌↔◌, ◌<◌, ◌≤◌, ℕ, ◌+◌, ◌-◌, true, false, List, Some, IsSomeAnd};
ghost use Rattle.mm_types.specs.declared.answers.Answer.TheVariants as answer;
ghost use Rattle.mm_types.specs.declared.codes.Raise.TheVariants as raise;
ghost use Rattle.mm_types.specs.{address_of, page_of, commit_type};
ghost use Rattle.mm_world.specs.{ProcessOf, StackOf, Page, Numbered, numbered, filled, alloc, stack_by, Committed, committed_at, guard_off, stack};
ghost use Rattle.mm_world.specs.{probe, is_overflow, reserve_pages};
ghost use Rattle.mm_world.specs.World.{World};
ghost use Rattle.mm_world.specs.Stack.{commit_pages};
ghost use Rattle.mm_world.specs.WellFormed.{WellFormed};
ghost use Rattle.mm_calls.specs.{ProbeIn, grows, growths, Overflows, StackGrows, StackStandsIn};

/// A stack of r pages with c committed grows at most r - c - 2 times, whatever the probes and
/// whatever happens between them.
pub fn stacks_grow_a_bounded_number_of_times()
    ensures made { (w : World) (tid pid reserve commit base size guard : ℕ)
        (probes : List ProbeIn) →
        (stack filled w tid pid reserve commit).answer ≡ answer.Stack base size guard →
        growths (stack filled w tid pid reserve commit).world.stacks tid probes + commit_pages
        commit + 2 ≤ reserve_pages reserve }
    ensures left { (stacks : Numbered StackOf) (tid : ℕ) (s : StackOf) (probes : List ProbeIn) →
        numbered stacks tid ≡ Some s → s.base < s.guard_page →
        growths stacks tid probes + s.base + 1 ≤ s.guard_page }
{}

/// The page that becomes the guard page by growth is the one below, and it stands above the base
/// page, which growth never commits. The address that a probe answers is that of the guard page
/// from then on.
pub fn growth_stays_above_the_base_page()
    ensures above { (w : World) (tid addr guard : ℕ) (s : StackOf) → stack_by w tid ≡ Some s →
        s.base < s.guard_page →
        (probe filled w tid addr).answer ≡ answer.At guard → page_of guard ≢ s.guard_page →
        (s.base < page_of guard) × (page_of guard + 1 ≡ s.guard_page) }
    ensures told { (w : World) (tid addr guard : ℕ) →
        (probe filled w tid addr).answer ≡ answer.At guard →
        IsSomeAnd (stack_by (probe filled w tid addr).world tid)
        (λ s. address_of s.guard_page ≡ guard) }
{}

/// STATUS_STACK_OVERFLOW is raised exactly at the guard page, with its guard on, where no page or
/// no commitment is left.
pub fn overflows_are_raised_where_nothing_is_left()
    ensures { (w : World) (tid addr : ℕ) →
        ((probe filled w tid addr).answer ≡ answer.Raised raise.StackOverflow) ↔ Overflows w tid
        (page_of addr) }
{}

/// A probe makes the stack of a thread grow exactly at its guard page, with its guard on, where a
/// page and commitment are left.
pub fn stacks_grow_where_something_is_left()
    ensures { (w : World) (tid addr : ℕ) (s : StackOf) → stack_by w tid ≡ Some s →
        s.base < s.guard_page →
        (grows filled w tid addr ≡ true) ↔ StackGrows w s (page_of addr) }
{}

/// Where the stack stands in its region, and something is left, the commitment of the next guard
/// page succeeds.
pub fn growth_succeeds_in_the_region()
    ensures { (w : World) (s : StackOf) (p : ProcessOf Page) (c : Committed Page) → WellFormed w →
        StackStandsIn w s p → committed_at w p.regions s.guard_page ≡ Some c →
        is_overflow w p s ≡ false →
        (alloc filled (guard_off w s.pid p c s.guard_page) s.pid (address_of (s.guard_page - 1)) 1
        commit_type 0x104).answer ≡ answer.At (address_of (s.guard_page - 1)) }
{}
