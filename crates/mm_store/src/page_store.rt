ghost use Rattle.std.specs.Prelude.{◌≡◌, ◌≤◌, ◌<◌, ◌+◌, ◌-◌, ◌^◌, ◌==◌, ℕ, Bool, true, false, Option, Some, None, IsSome, IsOk, is_ok, OnOk, OnErr, length, take, drop, unwrap_or};
ghost use Rattle.mm_types.specs.declared.devices.Device.TheVariants as device_of;
ghost use Rattle.mm_types.specs.declared.moves.LineKind.TheVariants as kind;
ghost use Rattle.mm_types.specs.{Key, Place, are_user_pages, limit_of, Loans};
ghost use Rattle.mm_types.specs.declared.numbers.Key.TheVariants.{Private, Shared};
ghost use Rattle.mm_world.specs.{Page, filled, written, same_key, most_slots};
ghost use Rattle.mm_types.specs.declared.moves.Move.TheVariants as move;
ghost use Rattle.mm_types.specs.declared.answers.Wait.TheVariants as wait_of;
ghost use Rattle.mm_store.specs.declared.outcomes.Need.TheVariants as wanted;
ghost use Rattle.mm_store.specs.Behind.{Behind};
ghost use Rattle.mm_store.specs.Standing.{StandsIn};
ghost use Rattle.mm_store.specs.Methods.{UsableAt, Accessed, PageCopied, BlockFlushed, MayMakeFile, NewFile, Begins, RequestEnded, PagingGrown};
ghost use Rattle.mm_store.specs.Passing.{PassesIn, NotesIn, FileMade};
ghost use Rattle.mm_store.specs.Accesses.{Starts, Forgets};
ghost use Rattle.mm_store.specs.Housekeeping.{Turn, Makes, MakesFrom, key_number, Ends as Ending, Turns, OneMove, Trims, AgesAll, Clears, WritesOut, CompletesAs, GrowsAs, FlushesPage};
ghost use Rattle.mm_store.specs.Leaving.{Leaving};
ghost use Rattle.mm_store.specs.Store.{StoreOf, changed_in, unnamed, own_key};
ghost use Rattle.mm_move_rules.specs.{changed};
ghost use Rattle.mm_store.specs.Reports.{begun, rearranged, with_named, with_named_paging};
ghost use Rattle.mm_store.specs.Conditions.{IsLineKind, pid_after, AllBound, MayUnbind, HasHome, MayRemove, IsAt, MayName, touch, copying, place_at, need_for, AreAmong, IsAmong};

use crate::outcomes::{Done, Need, Start};
use mm_types::{
    Area, Block, Counts, Device, Direction, GrowFault, Key, LineKind, MakeFault, NoMemory,
    PageFault, Pid, Place, Tid, Vpn, Wait, WriteFault,
};

/// A store of pages by key, each of 4,096 bytes.
///
/// A key is live from its `add` to its `remove`. A place, a page of an open process, is bound while
/// a region has it, and names the key last used there. What a call may do depends on the kind of
/// the line that began last (`line`). The profile's own boundary: below it pages may be paged,
/// above it nobody can tell.
pub trait PageStore {
    /// The bytes of each live key; none where the key is not live.
    ghost contents: { Self → Key → Option Page };

    /// Everything else that the store shows.
    ghost store: { Self → StoreOf };

    /// What stands behind it: the log of its moves, the life of its frames, ages and waits.
    /// Nothing, where it pages nothing.
    ghost behind: { Self → Behind };

    /// The references that the store holds.
    ghost loans: { Self → Loans };

    /// No access to this store ever fails or waits.
    ghost unpaged: { Bool };

    /// What the store keeps at all times between what it shows and what stands behind it. The call
    /// does nothing.
    fn sound(&self)
        ensures stands { StandsIn unpaged (contents self.now) (store self.now) (behind self.now) };

    /// Opens a new process, in the line that makes it, with the least and the greatest size of its
    /// working set in pages. After `NoMemory` nothing has changed.
    fn open_process(&mut self, pid: Pid, min: u32, max: u32) -> Result<(), NoMemory>
        requires new { (store self.old).is_open pid.0 ≡ false }
        requires kind { (store self.old).kind ≡ kind.Process pid min max }
        ensures ok { OnOk result (store self.new ≡ record (store self.old) {
          is_open = changed ◌==◌ (store self.old).is_open pid.0 true;
        }) }
        ensures err { OnErr result (store self.new ≡ store self.old) }
        ensures contents { contents self.new ≡ contents self.old }
        ensures passes { (turn : Turn) →
            PassesIn unpaged (Turns turn) (store self.old) (store self.new) (behind self.old)
            (behind self.new) }
        ensures loans { loans self.new ≡ loans self.old };

    /// Closes an open process that has no bound place.
    fn close_process(&mut self, pid: Pid)
        requires open { (store self.old).is_open pid.0 ≡ true }
        requires unbound { (page : ℕ) → (store self.old).bound (place_at pid page) ≡ false }
        ensures store { store self.new ≡ record (store self.old) {
          is_open = changed ◌==◌ (store self.old).is_open pid.0 false;
        } }
        ensures contents { contents self.new ≡ contents self.old }
        ensures passes { (turn : Turn) →
            PassesIn unpaged (Turns turn) (store self.old) (store self.new) (behind self.old)
            (behind self.new) }
        ensures loans { loans self.new ≡ loans self.old };

    /// Binds `n` user pages of an open process from `first` on, none of which is bound; they name
    /// nothing. After `NoMemory` nothing has changed.
    fn bind(&mut self, pid: Pid, first: Vpn, n: u32) -> Result<(), NoMemory>
        requires open { (store self.old).is_open pid.0 ≡ true }
        requires user { are_user_pages (record { first = first.0; count = n }) ≡ true }
        requires unbound { AllBound (store self.old) pid (record {
          first = first.0;
          count = n;
        }) false }
        ensures ok { OnOk result (store self.new ≡ record (store self.old) {
          bound = changed_in pid (record {
            first = first.0;
            count = n;
          }) (store self.old).bound true;
          names = changed_in pid (record {
            first = first.0;
            count = n;
          }) (store self.old).names None;
        }) }
        ensures err { OnErr result (store self.new ≡ store self.old) }
        ensures contents { contents self.new ≡ contents self.old }
        ensures passes { (turn : Turn) →
            PassesIn unpaged (Turns turn) (store self.old) (store self.new) (behind self.old)
            (behind self.new) }
        ensures loans { loans self.new ≡ loans self.old };

    /// Gives up `n` bound pages of a process from `first` on that have no live private key.
    fn unbind(&mut self, pid: Pid, first: Vpn, n: u32)
        requires bound { AllBound (store self.old) pid (record {
          first = first.0;
          count = n;
        }) true }
        requires dead { (page : ℕ) → first.0 ≤ page → page < first.0 + n →
            contents self.old (Private pid (record {
              0 = page;
            })) ≡ None }
        requires kind { MayUnbind (store self.old) pid (record { first = first.0; count = n }) }
        ensures store { store self.new ≡ record (store self.old) {
          bound = changed_in pid (record {
            first = first.0;
            count = n;
          }) (store self.old).bound false;
          names = changed_in pid (record {
            first = first.0;
            count = n;
          }) (store self.old).names None;
          report = rearranged (store self.old).report (store self.new).report;
        } }
        ensures contents { contents self.new ≡ contents self.old }
        ensures passes { (held : Leaving) (from to : ℕ) → AreAmong held from to pid (record {
          first = first.0;
          count = n;
        }) → PassesIn unpaged (Turns (Ending held from to)) (store self.old) (store self.new)
            (behind self.old) (behind self.new) }
        ensures loans { loans self.new ≡ loans self.old };

    /// Sees that there is room for `total` page-file keys, which is at most the commit limit. Room
    /// never falls, and where there is enough nothing is asked for.
    fn reserve(&mut self, total: u32) -> Result<(), NoMemory>
        requires { total ≤ limit_of (store self.old).machine }
        ensures enough { total ≤ (store self.old).room → IsOk result }
        ensures store { store self.new ≡ record (store self.old) { room = (store self.new).room } }
        ensures later { (store self.old).room ≤ (store self.new).room }
        ensures ok { OnOk result (total ≤ (store self.new).room) }
        ensures contents { contents self.new ≡ contents self.old }
        ensures passes { (turn : Turn) →
            PassesIn unpaged (Turns turn) (store self.old) (store self.new) (behind self.old)
            (behind self.new) }
        ensures loans { loans self.new ≡ loans self.old };

    /// Opens an area of `n` pages, at least one, of which none is live. An area number is below
    /// 2^28, and used once. After `NoMemory` nothing has changed.
    fn open_area(&mut self, area: Area, n: u32) -> Result<(), NoMemory>
        requires new { (store self.old).areas area.0 ≡ None }
        requires few { area.0 < 2 ^ 28 }
        requires some { 1 ≤ n }
        ensures ok { OnOk result (store self.new ≡ record (store self.old) {
          areas = changed ◌==◌ (store self.old).areas area.0 (Some n);
        }) }
        ensures err { OnErr result (store self.new ≡ store self.old) }
        ensures contents { contents self.new ≡ contents self.old }
        ensures passes { (turn : Turn) →
            PassesIn unpaged (Turns turn) (store self.old) (store self.new) (behind self.old)
            (behind self.new) }
        ensures loans { loans self.new ≡ loans self.old };

    /// Closes an open area, none of whose keys is live.
    fn close_area(&mut self, area: Area)
        requires open { IsSome ((store self.old).areas area.0) }
        requires dead { (index : ℕ) → contents self.old (Shared area index) ≡ None }
        ensures store { store self.new ≡ record (store self.old) {
          areas = changed ◌==◌ (store self.old).areas area.0 None;
        } }
        ensures contents { contents self.new ≡ contents self.old }
        ensures passes { (turn : Turn) →
            PassesIn unpaged (Turns turn) (store self.old) (store self.new) (behind self.old)
            (behind self.new) }
        ensures loans { loans self.new ≡ loans self.old };

    /// Makes a file of `n` pages, at least one, in the blocks from `first` on, the first that no
    /// file uses: page i holds the byte `byte + i` throughout. The blocks are written in order, up
    /// to the first write that fails: then there is no file, and no block is used. After `Memory`
    /// no device was called.
    fn make_file(&mut self, area: Area, first: Block, n: u32, byte: u8) -> Result<(), MakeFault>
        requires may { MayMakeFile (store self.old) area.0 first.0 n }
        ensures done { NewFile area.0 first.0 n byte (contents self.old) (contents self.new)
            (store self.old) (store self.new) result }
        ensures notes { NotesIn unpaged (Turns Makes) (behind self.old) (behind self.new) }
        ensures file { unpaged ≡ false →
            FileMade first.0 n result (store self.old) (store self.new) }
        ensures loans { loans self.new ≡ loans self.old };

    /// A page-file key comes to be, and reads as zero. There is room for it.
    fn add(&mut self, key: Key)
        requires dead { contents self.old key ≡ None }
        requires home { HasHome (store self.old) key }
        requires room { (store self.old).paging_keys < (store self.old).room }
        requires kind { (store self.old).kind ≡ kind.Call }
        ensures contents { contents self.new ≡ changed same_key (contents self.old) key
            (Some (filled 0)) }
        ensures store { store self.new ≡ record (store self.old) {
          paging = changed same_key (store self.old).paging key true;
          paging_keys = (store self.old).paging_keys + 1;
          report = rearranged (store self.old).report (store self.new).report;
        } }
        ensures passes { (from to : ℕ) → from ≤ key_number key → key_number key < to →
            PassesIn unpaged (Turns (MakesFrom from to)) (store self.old) (store self.new)
            (behind self.old) (behind self.new) }
        ensures loans { loans self.new ≡ loans self.old };

    /// A page-file key is no more, and its own place names nothing.
    fn remove(&mut self, key: Key)
        requires live { (store self.old).paging key ≡ true }
        requires kind { MayRemove (store self.old) key }
        ensures contents { contents self.new ≡ changed same_key (contents self.old) key None }
        ensures store { store self.new ≡ record (store self.old) {
          names = unnamed key (store self.old).names;
          paging = changed same_key (store self.old).paging key false;
          paging_keys = (store self.old).paging_keys - 1;
          report = rearranged (store self.old).report (store self.new).report;
        } }
        ensures passes { (held : Leaving) (from to : ℕ) →
            IsAmong (contents self.old) held from to key →
            PassesIn unpaged (Turns (Ending held from to)) (store self.old) (store self.new)
            (behind self.old) (behind self.new) }
        ensures loans { loans self.new ≡ loans self.old };

    /// Reads up to 64 bytes of a key's page from `off` on, at a place that may use the key; the
    /// place then names it. Why it fails stands in `fault`: only as paging fails, in an unpaged
    /// store never.
    fn read(&mut self, place: Place, key: Key, off: u16, out: &mut [u8]) -> Result<(), PageFault>
        requires may { UsableAt (contents self.old) (store self.old) place key (touch key) }
        requires few { length out.old ≤ 64 }
        requires inside { off + length out.old ≤ 4096 }
        ensures length { length out.new ≡ length out.old }
        ensures bytes { OnOk result (out.new ≡
            take (length out.old) (drop off (unwrap_or (contents self.old key) (filled 0)))) }
        ensures contents { contents self.new ≡ contents self.old }
        ensures done { Accessed unpaged place key false (store self.old) (store self.new)
            (behind self.old) (behind self.new) result }
        ensures loans { loans self.new ≡ loans self.old };

    /// Writes up to 64 bytes of a key's page from `off` on, as `read`. Only that key's bytes
    /// change, and only after Ok.
    fn write(&mut self, place: Place, key: Key, off: u16, bytes: &[u8]) -> Result<(), PageFault>
        requires may { UsableAt (contents self.old) (store self.old) place key (touch key) }
        requires few { length bytes.now ≤ 64 }
        requires inside { off + length bytes.now ≤ 4096 }
        ensures written { OnOk result (contents self.new ≡ changed same_key (contents self.old) key
            (Some (written (unwrap_or (contents self.old key) (filled 0)) off bytes.now))) }
        ensures kept { OnErr result (contents self.new ≡ contents self.old) }
        ensures done { Accessed unpaged place key true (store self.old) (store self.new)
            (behind self.old) (behind self.new) result }
        ensures loans { loans self.new ≡ loans self.old };

    /// Copies a page to the key that is the place's own, which comes to be; the place then names
    /// it, and it is ready. There is room for it. It fails as a read of `from` does, or because no
    /// frame could be had; the place may then name `from`.
    fn copy(&mut self, place: Place, from: Key, to: Key) -> Result<(), PageFault>
        requires may { UsableAt (contents self.old) (store self.old) place from
            (copying from place) }
        requires own { to ≡ own_key place }
        requires dead { contents self.old to ≡ None }
        requires room { (store self.old).paging_keys < (store self.old).room }
        ensures copied { OnOk result (contents self.new ≡ changed same_key (contents self.old) to
            (contents self.old from)) }
        ensures kept { OnErr result (contents self.new ≡ contents self.old) }
        ensures done { PageCopied unpaged place from to (store self.old) (store self.new)
            (behind self.old) (behind self.new) result }
        ensures loans { loans self.new ≡ loans self.old };

    /// Sees that the block of a live file key holds its bytes: writes it where it does not. No
    /// other block changes. It fails exactly where a write of it failed in this call.
    fn flush(&mut self, key: Key) -> Result<(), WriteFault>
        requires live { IsSome ((store self.old).block_of key) }
        requires kind { (store self.old).kind ≡ kind.Call }
        ensures done { BlockFlushed key (contents self.old key) (store self.old) (store self.new)
            result }
        ensures contents { contents self.new ≡ contents self.old }
        ensures passes { PassesIn unpaged (FlushesPage key (is_ok result)) (store self.old)
            (store self.new) (behind self.old) (behind self.new) }
        ensures loans { loans self.new ≡ loans self.old };

    /// Unmaps at most `n` places of an open process, the oldest first, and leaves the least number
    /// of its working set.
    fn trim(&mut self, pid: Pid, n: u32)
        requires open { (store self.old).is_open pid.0 ≡ true }
        requires kind { (store self.old).kind ≡ kind.Trim pid }
        ensures store { store self.new ≡ record (store self.old) {
          report = rearranged (store self.old).report (store self.new).report;
        } }
        ensures contents { contents self.new ≡ contents self.old }
        ensures passes { PassesIn unpaged (Trims pid n) (store self.old) (store self.new)
            (behind self.old) (behind self.new) }
        ensures loans { loans self.new ≡ loans self.old };

    /// Each valid place of an open process is one older, up to 7.
    fn age(&mut self, pid: Pid)
        requires open { (store self.old).is_open pid.0 ≡ true }
        ensures store { store self.new ≡ store self.old }
        ensures contents { contents self.new ≡ contents self.old }
        ensures passes { PassesIn unpaged (AgesAll pid) (store self.old) (store self.new)
            (behind self.old) (behind self.new) }
        ensures loans { loans self.new ≡ loans self.old };

    /// Clears at most `n` free frames, from the front of their list.
    fn zero(&mut self, n: u32)
        requires kind { (store self.old).kind ≡ kind.Zeroer }
        ensures store { store self.new ≡ record (store self.old) {
          report = rearranged (store self.old).report (store self.new).report;
        } }
        ensures contents { contents self.new ≡ contents self.old }
        ensures passes { PassesIn unpaged (Clears n) (store self.old) (store self.new)
            (behind self.old) (behind self.new) }
        ensures loans { loans self.new ≡ loans self.old };

    /// Of the calls of that device and direction from now on, the `k`-th, counted from 1, is the
    /// first of `n` that fail. An unpaged store calls no paging device.
    fn fail(&mut self, device: Device, direction: Direction, k: u32, n: u32)
        requires room { MayName (store self.old) }
        requires first { 1 ≤ k }
        requires some { 1 ≤ n }
        ensures files { device ≡ device_of.File → store self.new ≡ record (store self.old) {
          file_device =
              with_named (store self.old).file_device
              (record { direction = direction; passes = k - 1; fails = n });
        } }
        ensures paging { device ≡ device_of.Paging → store self.new ≡ record (store self.old) {
          paging_device = with_named_paging unpaged (store self.old).paging_device
              (record { direction = direction; passes = k - 1; fails = n });
        } }
        ensures contents { contents self.new ≡ contents self.old }
        ensures behind { behind self.new ≡ behind self.old }
        ensures loans { loans self.new ≡ loans self.old };

    /// A line begins: its number is one more than the last one's, and its kind is neither `machine`
    /// nor `grow`.
    fn line(&mut self, line: u32, kind: LineKind)
        requires next { line ≡ (store self.old).line + 1 }
        requires kind { IsLineKind (store self.old) kind }
        ensures store { store self.new ≡ record (store self.old) {
          line = line;
          kind = kind;
          last_pid = pid_after (store self.old).last_pid kind;
          ready = None;
          report = begun (store self.old).report;
        } }
        ensures contents { contents self.new ≡ contents self.old }
        ensures passes { PassesIn unpaged (OneMove (move.At line kind)) (store self.old)
            (store self.new) (behind self.old) (behind self.new) }
        ensures loans { loans self.new ≡ loans self.old };

    /// A line begins in which the paging file grows by `n` slots, in the place of `line`. `Failed`
    /// comes only where the paging device's count of faults rose, and the line is a call that
    /// changed nothing; after `Memory` no line has begun.
    fn grow(&mut self, line: u32, n: u32) -> Result<(), GrowFault>
        requires next { line ≡ (store self.old).line + 1 }
        requires some { 1 ≤ n }
        requires most { (store self.old).machine.slots + n ≤ most_slots }
        ensures contents { contents self.new ≡ contents self.old }
        ensures done { PagingGrown unpaged line n (store self.old) (store self.new) result }
        ensures notes { NotesIn unpaged (GrowsAs line n result)
            (behind self.old) (behind self.new) }
        ensures loans { loans self.new ≡ loans self.old };

    /// An access of a thread begins, and waits for no device: it is ready, or it waits as the
    /// definition of worlds says (`pending`), by the report before the line and the one after this
    /// call. The place may come to name the key. Bytes stay.
    fn start(&mut self, tid: Tid, place: Place, key: Key, need: Need) -> Start
        requires at { IsAt (contents self.old) (store self.old) place key }
        requires dead { need ≡ wanted.Copy → contents self.old (own_key place) ≡ None }
        requires kind { (store self.old).kind ≡ kind.Thread place.pid }
        ensures contents { contents self.new ≡ contents self.old }
        ensures done { Begins unpaged tid.0 place key (need_for need key place) (store self.old)
            (store self.new) result }
        ensures passes { (writes : Bool) → PassesIn unpaged (Starts (record {
          place = place;
          need = need_for need key place;
          writes = writes;
          start = (behind self.old).life;
        }) tid.0 result) (store self.old) (store self.new) (behind self.old) (behind self.new) }
        ensures loans { loans self.new ≡ loans self.old };

    /// What became of the read that a thread waits for.
    fn outcome(&self, tid: Tid) -> Wait
        ensures { result ≡ (store self.now).report.wait tid.0 };

    /// A thread waits for nothing.
    fn forget(&mut self, tid: Tid)
        ensures store { store self.new ≡ record (store self.old) {
          report = record (store self.old).report {
            wait =
                changed ◌==◌ (store self.old).report.wait tid.0 wait_of.None;
          };
        } }
        ensures contents { contents self.new ≡ contents self.old }
        ensures passes { PassesIn unpaged (Forgets tid.0) (store self.old) (store self.new)
            (behind self.old) (behind self.new) }
        ensures loans { loans self.new ≡ loans self.old };

    /// Begins writes of at most `n` modified frames, from the front of their list.
    fn write_out(&mut self, n: u32)
        requires kind { (store self.old).kind ≡ kind.Writer }
        ensures store { store self.new ≡ record (store self.old) {
          report = rearranged (store self.old).report (store self.new).report;
        } }
        ensures contents { contents self.new ≡ contents self.old }
        ensures passes { PassesIn unpaged (WritesOut n) (store self.old) (store self.new)
            (behind self.old) (behind self.new) }
        ensures loans { loans self.new ≡ loans self.old };

    /// Completes the `i`-th oldest request, counted from 1: its device is called now. `None` comes
    /// exactly where fewer are in flight, `Failed` exactly where the call failed.
    fn complete(&mut self, i: u32) -> Done
        requires some { 1 ≤ i }
        requires kind { (store self.old).kind ≡ kind.Io }
        ensures contents { contents self.new ≡ contents self.old }
        ensures done { RequestEnded i (store self.old) (store self.new) result }
        ensures passes { PassesIn unpaged (CompletesAs i result) (store self.old) (store self.new)
            (behind self.old) (behind self.new) }
        ensures loans { loans self.new ≡ loans self.old };

    /// How many frames, slots and requests there are of each kind.
    fn counts(&self) -> Counts
        ensures { result ≡ (store self.now).report.counts };

    /// Whether the sink of moves has failed.
    fn moves_failed(&self) -> bool
        ensures { result ≡ (behind self.now).log.failed };
}
