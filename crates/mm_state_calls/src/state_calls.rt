ghost use Rattle.std.specs.Prelude.{◌≡◌, ◌≢◌, ◌≤◌, ◌<◌, ◌+◌, ◌-◌, ◌^◌, ◌==◌, ◌++◌, ◌∷◌, [], List, ℕ, Bool, true, false, Some, None, IsSome, IfSome, OnOk, OnErr, IsErrOf, is_some, is_ok, length, option_map, replicate, slice_get, slice_set, count_by, unwrap_or};
ghost use Rattle.std.specs.Option.{MatchOption, ForSome};
ghost use Rattle.mm_types.specs.{first_user_page, end_of_user_pages, Loans, Rose, Frame, Key, Place};
ghost use Rattle.mm_types.specs.declared.devices.Device.TheVariants as device_of;
ghost use Rattle.mm_types.specs.declared.devices.Direction.TheVariants as way;
ghost use Rattle.mm_types.specs.declared.faults.GrowFault.TheVariants as grow_fault;
ghost use Rattle.mm_types.specs.declared.frames.Backing.TheVariants as backing;
ghost use Rattle.mm_types.specs.declared.frames.Held.TheVariants as held;
ghost use Rattle.mm_types.specs.declared.moves.LineKind.TheVariants as kind;
ghost use Rattle.mm_types.specs.declared.moves.Move.TheVariants as move;
ghost use Rattle.mm_types.specs.declared.numbers.Key.TheVariants.{Private, Shared};
ghost use Rattle.mm_move_rules.specs.{record_at, is_read, is_empty, is_on, changed, same_key, same_place, counts_of, set_of, Flushed, IsLegal, is_at_max};
ghost use Rattle.mm_move_rules.specs.{is_above_min, is_below_max, has_depth, zero_page, can_be_written, all_aged, IsOldest, Idle, ForFrame, wait_of};
ghost use Rattle.mm_page_tables.specs.{pages, changed_in, place_from};
ghost use Rattle.mm_ram.specs.{bytes_from, overwritten};
ghost use Rattle.mm_pfn_database.specs.{has_block, modified_with_block, IsAtRest};
ghost use Rattle.mm_requests.specs.{nth_oldest, place_in};
ghost use Rattle.mm_working_sets.specs.{IsNextFrom};
ghost use Rattle.mm_parts.specs.{front, front_for_read, own_after, own_ended, end_of_read, write_end, write_target, left_by, IsPlainLine, after_page, HasEntry, IsClear, MayMap, CanBegin, aside_after_add, names_after_drop, names_after_give, names_after_map};
ghost use Rattle.mm_store.specs.{with_named, with_write};
ghost use Rattle.mm_frame_laws.specs.{IsNextPage, NoPageFollows, IsSoiled};
ghost use Rattle.mm_state_calls.specs.Shown.{StateOf, Made, GrowBegins, WrotePage, DeviceCalled, moved, moved_with_call, asked_to_grow, backing_of_frame, written_if, KeepsRequests};
ghost use Rattle.mm_state_calls.specs.Holds.{StateHolds};

use mm_types::{
    Area, Block, Counts, Device, Direction, Failed, Frame, GrowFault, Held, Key, LineKind, Machine,
    NoMemory, Pid, Place, Record, Stored, Tid, Vpn, Wait,
};

/// A machine's joined state, by its calls: one for each move of the log, and what looks at it.
///
/// Page tables, prototype entries, working sets, page frames, slots, requests in flight and bytes,
/// over a paging device, a device of files and a sink of moves. Contracts see what it shows
/// (`StateOf`). Each move asks that it is legal, and is then made, noted and counted (`Made`);
/// beside it exactly what a clause names changes. No call takes memory but `open_process`, `bind`,
/// `open_area` and `grow`.
pub trait StateCalls {
    ghost shown: { Self → StateOf };

    ghost loans: { Self → Loans };

    /// The line's own request alone passes the depth, and each key has a page of bytes. The call
    /// does nothing.
    fn sound(&self)
        ensures few { (shown self.now).own ≡ None →
            length (shown self.now).life.flight ≤ (shown self.now).life.machine.depth }
        ensures whole { (k : Key) (page : List ℕ) → (shown self.now).contents k ≡ Some page →
            length page ≡ 4096 };

    // ---- lines

    /// A line begins, of any kind but one in which the paging file grows. The last line's own
    /// request is done, and nothing stands beside the tables.
    fn at(&mut self, line: u32, kind: LineKind)
        requires legal { IsLegal (move.At line kind) (shown self.old).life }
        requires plain { IsPlainLine kind }
        requires done { (shown self.old).own ≡ None }
        requires alone { (shown self.old).aside ≡ None }
        ensures made { Made (move.At line kind) (shown self.old) (shown self.new) }
        ensures rest { shown self.new ≡ moved (shown self.old) (shown self.new) }
        ensures loans { loans self.new ≡ loans self.old };

    /// A line begins in which the paging file grows by `n` slots of zeros. Where the paging device
    /// fails the line is a call that changes nothing; after `Memory` no line has begun, and nothing
    /// has changed.
    fn grow(&mut self, line: u32, n: u32) -> Result<(), GrowFault>
        requires legal { IsLegal (move.At line (kind.Grow n)) (shown self.old).life }
        requires done { (shown self.old).own ≡ None }
        requires alone { (shown self.old).aside ≡ None }
        ensures ok { OnOk result (GrowBegins (move.At line (kind.Grow n)) (shown self.old)
            (shown self.new)) }
        ensures grown { OnOk result (shown self.new ≡
            record (moved (shown self.old) (shown self.new)) {
              slots = (shown self.old).slots ++ replicate n zero_page;
            }) }
        ensures failed { IsErrOf result grow_fault.Failed →
            GrowBegins (move.At line kind.Call) (shown self.old) (shown self.new) }
        ensures kept { IsErrOf result grow_fault.Failed →
            shown self.new ≡ record (moved (shown self.old) (shown self.new)) {
              paging = asked_to_grow (shown self.old).paging (shown self.new).paging;
            } }
        ensures memory { IsErrOf result grow_fault.Memory → shown self.new ≡ shown self.old }
        ensures later { (shown self.old).paging.faults ≤ (shown self.new).paging.faults }
        ensures cause { IsErrOf result grow_fault.Failed →
            Rose (shown self.old).paging.faults (shown self.new).paging.faults }
        ensures loans { loans self.new ≡ loans self.old };

    // ---- processes, places, areas

    /// Opens a process whose line has begun, and takes the room of its working set. After
    /// `NoMemory` nothing has changed.
    fn open_process(&mut self, pid: Pid) -> Result<(), NoMemory>
        requires { is_some (set_of (shown self.old).life pid.0) ≡ true }
        ensures ok { OnOk result (shown self.new ≡ record (shown self.old) {
          is_open = changed ◌==◌ (shown self.old).is_open pid.0 true;
        }) }
        ensures err { OnErr result (shown self.new ≡ shown self.old) }
        ensures loans { loans self.new ≡ loans self.old };

    /// Closes an open process that has no bound place.
    fn close_process(&mut self, pid: Pid)
        requires open { (shown self.old).is_open pid.0 ≡ true }
        requires unbound { (v : ℕ) → (shown self.old).bound (place_from pid (record {
          0 = v;
        })) ≡ false }
        ensures rest { shown self.new ≡ record (shown self.old) {
          is_open = changed ◌==◌ (shown self.old).is_open pid.0 false;
        } }
        ensures loans { loans self.new ≡ loans self.old };

    /// Binds `n` user pages of an open process from `first` on; those that were bound keep what
    /// they name. After `NoMemory` nothing has changed.
    fn bind(&mut self, pid: Pid, first: Vpn, n: u32) -> Result<(), NoMemory>
        requires open { (shown self.old).is_open pid.0 ≡ true }
        requires low { first_user_page ≤ first.0 }
        requires high { first.0 + n ≤ end_of_user_pages }
        ensures ok { OnOk result (shown self.new ≡ record (shown self.old) {
          bound = changed_in (shown self.old).bound pid.0 (pages first.0 n) true;
        }) }
        ensures err { OnErr result (shown self.new ≡ shown self.old) }
        ensures loans { loans self.new ≡ loans self.old };

    /// Gives up `n` bound pages of a process from `first` on, none of which is valid or has a live
    /// private key. Nothing stands beside the tables. They name nothing from then on.
    fn unbind(&mut self, pid: Pid, first: Vpn, n: u32)
        requires open { (shown self.old).is_open pid.0 ≡ true }
        requires bound { (v : ℕ) → first.0 ≤ v → v < first.0 + n →
            (shown self.old).bound (place_from pid (record {
              0 = v;
            })) ≡ true }
        requires invalid { (v : ℕ) → first.0 ≤ v → v < first.0 + n →
            (shown self.old).life.valid (place_from pid (record {
              0 = v;
            })) ≡ None }
        requires dead { (v : ℕ) → first.0 ≤ v → v < first.0 + n →
            (shown self.old).life.stands (Private pid (record {
              0 = v;
            })) ≡ held.Dead }
        requires alone { (shown self.old).aside ≡ None }
        ensures rest { shown self.new ≡ record (shown self.old) {
          bound = changed_in (shown self.old).bound pid.0 (pages first.0 n) false;
          names = changed_in (shown self.old).names pid.0 (pages first.0 n) None;
        } }
        ensures loans { loans self.new ≡ loans self.old };

    /// Opens an area that is not open, of `n` pages, none of which is live. An area's number is
    /// below 2^28. After `NoMemory` nothing has changed.
    fn open_area(&mut self, area: Area, n: u32) -> Result<(), NoMemory>
        requires new { (shown self.old).areas area.0 ≡ None }
        requires few { area.0 < 2 ^ 28 }
        ensures ok { OnOk result (shown self.new ≡ record (shown self.old) {
          areas = changed ◌==◌ (shown self.old).areas area.0 (Some n);
        }) }
        ensures err { OnErr result (shown self.new ≡ shown self.old) }
        ensures loans { loans self.new ≡ loans self.old };

    /// Closes an open area, none of whose pages is live.
    fn close_area(&mut self, area: Area)
        requires open { is_some ((shown self.old).areas area.0) ≡ true }
        requires dead { (i : ℕ) → (shown self.old).life.stands (Shared area i) ≡ held.Dead }
        ensures rest { shown self.new ≡ record (shown self.old) {
          areas = changed ◌==◌ (shown self.old).areas area.0 None;
        } }
        ensures loans { loans self.new ≡ loans self.old };

    // ---- keys

    /// A page-file key comes to be, and reads as zero. In an access it is that of a copy, and
    /// stands beside the tables, since its place names the page that is copied.
    fn add_zero(&mut self, key: Key)
        requires legal { IsLegal (move.Add key None) (shown self.old).life }
        requires home { HasEntry (shown self.old).bound (shown self.old).areas key }
        requires clear { IsClear (shown self.old).life.kind (shown self.old).names
            (shown self.old).aside key }
        ensures made { Made (move.Add key None) (shown self.old) (shown self.new) }
        ensures rest { shown self.new ≡ record (moved (shown self.old) (shown self.new)) {
          contents = changed same_key (shown self.old).contents key (Some zero_page);
          aside = aside_after_add (shown self.old).names (shown self.old).aside key;
        } }
        ensures loans { loans self.new ≡ loans self.old };

    /// A page of a file comes to be: its bytes are those of its block.
    fn add_block(&mut self, key: Key, b: Block)
        requires legal { IsLegal (move.Add key (Some b)) (shown self.old).life }
        requires home { HasEntry (shown self.old).bound (shown self.old).areas key }
        ensures made { Made (move.Add key (Some b)) (shown self.old) (shown self.new) }
        ensures rest { shown self.new ≡ record (moved (shown self.old) (shown self.new)) {
          contents = changed same_key (shown self.old).contents key
              (slice_get (shown self.old).blocks b.0);
        } }
        ensures loans { loans self.new ≡ loans self.old };

    /// A page-file key is no more: its slot is free, and so is its frame unless a request holds it.
    fn drop_key(&mut self, key: Key)
        requires legal { IsLegal (move.Drop key) (shown self.old).life }
        ensures made { Made (move.Drop key) (shown self.old) (shown self.new) }
        ensures rest { shown self.new ≡ record (moved (shown self.old) (shown self.new)) {
          contents = changed same_key (shown self.old).contents key None;
          names = names_after_drop (shown self.old).names key;
        } }
        ensures loans { loans self.new ≡ loans self.old };

    // ---- frames

    /// The first free frame is cleared, and goes to the end of zeroed.
    fn clear(&mut self)
        requires legal { IsLegal (move.Clear (front (shown self.old).life.frames.free))
            (shown self.old).life }
        ensures made { Made (move.Clear (front (shown self.old).life.frames.free)) (shown self.old)
            (shown self.new) }
        ensures rest { shown self.new ≡ moved (shown self.old) (shown self.new) }
        ensures loans { loans self.new ≡ loans self.old };

    /// The first frame on standby is taken from its page, and is free: the page is where it was
    /// read from or written to.
    fn repurpose(&mut self)
        requires legal { IsLegal (move.Steal (front (shown self.old).life.frames.standby))
            (shown self.old).life }
        ensures made { Made (move.Steal (front (shown self.old).life.frames.standby))
            (shown self.old) (shown self.new) }
        ensures rest { shown self.new ≡ moved (shown self.old) (shown self.new) }
        ensures loans { loans self.new ≡ loans self.old };

    /// The first zeroed frame is that of a page that reads as zero and has none.
    fn assign(&mut self, key: Key) -> Frame
        requires legal { IsLegal (move.Give (front (shown self.old).life.frames.zeroed) key)
            (shown self.old).life }
        ensures frame { result ≡ front (shown self.old).life.frames.zeroed }
        ensures quiet { is_read (record_at (shown self.new).life.frames result.0).request ≡ false }
        ensures made { Made (move.Give result key) (shown self.old) (shown self.new) }
        ensures rest { shown self.new ≡
            record (moved (shown self.old) (shown self.new)) {
              names =
                  names_after_give (shown self.old).aside (shown self.old).names key;
            } }
        ensures loans { loans self.new ≡ loans self.old };

    /// The page of a frame becomes valid at a place, and has age 0 there. For a shared page the
    /// place's own private key is dead.
    fn map(&mut self, f: Frame, place: Place)
        requires legal { IsLegal (move.Map f place) (shown self.old).life }
        requires bound { (shown self.old).bound place ≡ true }
        requires alone { MayMap (shown self.old).life f place }
        ensures quiet { is_read (record_at (shown self.new).life.frames f.0).request ≡ false }
        ensures made { Made (move.Map f place) (shown self.old) (shown self.new) }
        ensures rest { shown self.new ≡ record (moved (shown self.old) (shown self.new)) {
          names = names_after_map (shown self.old).life.frames (shown self.old).names f place;
          aside = left_by (shown self.old).aside place;
        } }
        ensures loans { loans self.new ≡ loans self.old };

    /// A place is valid no more; it names what it named. Without shares and without a request the
    /// page's frame goes to standby or modified.
    fn unmap(&mut self, place: Place)
        requires legal { IsLegal (move.Unmap place) (shown self.old).life }
        ensures requests { KeepsRequests (shown self.old).life (shown self.new).life }
        ensures below { is_at_max (set_of (shown self.old).life place.pid.0) ≡ true
            → is_below_max (set_of (shown self.new).life place.pid.0) ≡ true }
        ensures made { Made (move.Unmap place) (shown self.old) (shown self.new) }
        ensures rest { shown self.new ≡ moved (shown self.old) (shown self.new) }
        ensures loans { loans self.new ≡ loans self.old };

    /// A page that is valid somewhere differs from its backing from now on. While it is being
    /// written, it is to be written again.
    fn set_dirty(&mut self, f: Frame)
        requires legal { IsLegal (move.Soil f) (shown self.old).life }
        ensures soiled { IsSoiled (record_at (shown self.new).life.frames f.0) }
        ensures made { Made (move.Soil f) (shown self.old) (shown self.new) }
        ensures rest { shown self.new ≡ moved (shown self.old) (shown self.new) }
        ensures loans { loans self.new ≡ loans self.old };

    // ---- requests

    /// A read of a page begins, into the first free frame, or where none is free the first zeroed
    /// one.
    fn start_read(&mut self, key: Key) -> Frame
        requires legal { IsLegal (move.Read (front_for_read (shown self.old).life) key)
            (shown self.old).life }
        requires room { CanBegin (shown self.old).life.kind (shown self.old).own }
        ensures frame { result ≡ front_for_read (shown self.old).life }
        ensures reading { is_read (record_at (shown self.new).life.frames result.0).request ≡ true }
        ensures made { Made (move.Read result key) (shown self.old) (shown self.new) }
        ensures rest { shown self.new ≡
            record (moved (shown self.old) (shown self.new)) {
              own =
                  own_after (shown self.old).life.kind (shown self.old).own result;
            } }
        ensures loans { loans self.new ≡ loans self.old };

    /// The device is called, and the read ends: true where the call succeeded. The waits for it
    /// have ended too.
    fn end_read(&mut self, f: Frame) -> bool
        requires legal { IsLegal (move.Got f) (shown self.old).life }
        ensures quiet { result ≡ true
            → is_read (record_at (shown self.new).life.frames f.0).request ≡ false }
        ensures made { Made (end_of_read result f) (shown self.old) (shown self.new) }
        ensures rest { shown self.new ≡ record (moved_with_call (shown self.old) (shown self.new)) {
          own = own_ended (shown self.old).own f.0;
          slots = (shown self.old).slots;
          blocks = (shown self.old).blocks;
        } }
        ensures loans { loans self.new ≡ loans self.old };

    /// A write of a page begins: to the block that backs its frame, or for a page of the paging
    /// file to the lowest free slot.
    fn start_write(&mut self, f: Frame) -> Stored
        requires legal { IsLegal (move.Write f (write_target (shown self.old).life f))
            (shown self.old).life }
        requires room { CanBegin (shown self.old).life.kind (shown self.old).own }
        ensures to { result ≡ write_target (shown self.old).life f }
        ensures made { Made (move.Write f result) (shown self.old) (shown self.new) }
        ensures rest { shown self.new ≡
            record (moved (shown self.old) (shown self.new)) {
              own =
                  own_after (shown self.old).life.kind (shown self.old).own f;
            } }
        ensures loans { loans self.new ≡ loans self.old };

    /// The device is called, and the write ends: true where the call succeeded.
    fn end_write(&mut self, f: Frame) -> bool
        requires legal { IsLegal (move.Wrote f) (shown self.old).life }
        ensures made { Made (write_end result f) (shown self.old) (shown self.new) }
        ensures rest { shown self.new ≡
            record (moved_with_call (shown self.old) (shown self.new)) {
              own =
                  own_ended (shown self.old).own f.0;
            } }
        ensures wrote { (k : Key) (page : List ℕ) →
            (record_at (shown self.old).life.frames f.0).owner ≡ Some k →
            (shown self.old).contents k ≡ Some page →
            WrotePage (backing_of_frame (shown self.old) f) page result (shown self.old)
            (shown self.new) }
        ensures ownerless { (record_at (shown self.old).life.frames f.0).owner ≡ None →
            (shown self.new).blocks ≡ (shown self.old).blocks }
        ensures loans { loans self.new ≡ loans self.old };

    /// A thread waits for a read in flight, which is not the line's own, from now on.
    fn wait(&mut self, t: Tid, f: Frame)
        requires read { is_read (record_at (shown self.old).life.frames f.0).request ≡ true }
        requires other { (shown self.old).own ≢ Some f }
        ensures rest { shown self.new ≡ record (shown self.old) {
          waits = changed ◌==◌ (shown self.old).waits t.0 (ForFrame f.0);
        } }
        ensures loans { loans self.new ≡ loans self.old };

    /// A thread waits for nothing from now on.
    fn forget(&mut self, t: Tid)
        ensures rest { shown self.new ≡ record (shown self.old) {
          waits = changed ◌==◌ (shown self.old).waits t.0 Idle;
        } }
        ensures loans { loans self.new ≡ loans self.old };

    // ---- bytes and ages

    /// Reads bytes of the page that is valid at a place, from `off` on. The page has age 0 then.
    fn read(&mut self, place: Place, off: u16, out: &mut [u8])
        requires valid { IsSome ((shown self.old).life.valid place) }
        requires inside { off + length out.old ≤ 4096 }
        ensures bytes { (k : Key) → (shown self.old).names place ≡ Some k →
            out.new ≡ bytes_from (unwrap_or ((shown self.old).contents k) zero_page) off
            (length out.old) }
        ensures rest { shown self.new ≡ record (shown self.old) {
          ages = changed same_place (shown self.old).ages place 0;
        } }
        ensures loans { loans self.new ≡ loans self.old };

    /// Writes bytes of the page that is valid at a place, from `off` on. The page has age 0 then.
    /// Its frame is changed, and is not being written, or is to be written again.
    fn write(&mut self, place: Place, off: u16, bytes: &[u8])
        requires valid { IsSome ((shown self.old).life.valid place) }
        requires soiled { (f : Frame) → (shown self.old).life.valid place ≡ Some f →
            IsSoiled (record_at (shown self.old).life.frames f.0) }
        requires inside { off + length bytes.now ≤ 4096 }
        ensures bytes { (k : Key) → (shown self.old).names place ≡ Some k →
            (shown self.new).contents ≡ changed same_key (shown self.old).contents k
            (Some (overwritten (unwrap_or ((shown self.old).contents k) zero_page) off bytes.now)) }
        ensures rest { shown self.new ≡ record (shown self.old) {
          ages = changed same_place (shown self.old).ages place 0;
          contents = (shown self.new).contents;
        } }
        ensures loans { loans self.new ≡ loans self.old };

    /// Copies the page of one frame to that of another, which is changed, and is not being written,
    /// or is to be written again.
    fn copy(&mut self, from: Frame, to: Frame)
        requires from_owned { IsSome (record_at (shown self.old).life.frames from.0).owner }
        requires from_calm { is_read (record_at (shown self.old).life.frames from.0).request ≡
            false }
        requires to_owned { IsSome (record_at (shown self.old).life.frames to.0).owner }
        requires soiled { IsSoiled (record_at (shown self.old).life.frames to.0) }
        requires other { from.0 ≢ to.0 }
        ensures copied { (j k : Key) → (record_at (shown self.old).life.frames from.0).owner ≡
            Some j → (record_at (shown self.old).life.frames to.0).owner ≡ Some k →
            (shown self.new).contents ≡ changed same_key (shown self.old).contents k
            ((shown self.old).contents j) }
        ensures rest { shown self.new ≡ record (shown self.old) {
          contents = (shown self.new).contents;
        } }
        ensures loans { loans self.new ≡ loans self.old };

    /// Each valid page of an open process is one older, up to 7.
    fn age_all(&mut self, pid: Pid)
        requires { (shown self.old).is_open pid.0 ≡ true }
        ensures rest { shown self.new ≡ record (shown self.old) {
          ages = all_aged pid (shown self.old).life (shown self.old).ages;
        } }
        ensures loans { loans self.new ≡ loans self.old };

    // ---- devices

    /// Writes one block of a new file throughout with a byte: true where the device call succeeded.
    /// No key was ever added with it.
    fn write_block(&mut self, b: Block, byte: u8) -> bool
        requires there { b.0 < (shown self.old).life.machine.blocks }
        requires new { (shown self.old).life.added b.0 ≡ false }
        ensures called { DeviceCalled way.Write (backing.Block b) result (shown self.old)
            (shown self.new) }
        ensures told { (shown self.new).told ≡
            with_write result (backing.Block b) (shown self.old).told }
        ensures written { (shown self.new).blocks ≡
            written_if result (λ blocks. slice_set blocks b.0 (replicate 4096 byte))
            (shown self.old).blocks }
        ensures rest { shown self.new ≡ record (shown self.old) {
          told = (shown self.new).told;
          files = (shown self.new).files;
          blocks = (shown self.new).blocks;
        } }
        ensures loans { loans self.new ≡ loans self.old };

    /// Of the calls of that device and direction from now on, the `k`-th, counted from 1, is the
    /// first of `n` that fail: at most 64 times for each device.
    fn fail(&mut self, device: Device, direction: Direction, k: u32, n: u32)
        requires paging_room { device ≡ device_of.Paging →
            length (shown self.old).paging.named < 64 }
        requires file_room { device ≡ device_of.File → length (shown self.old).files.named < 64 }
        requires first { 1 ≤ k }
        requires some { 1 ≤ n }
        ensures files { device ≡ device_of.File → shown self.new ≡ record (shown self.old) {
          files = with_named (shown self.old).files
              (record { direction = direction; passes = k - 1; fails = n });
        } }
        ensures paging { device ≡ device_of.Paging → shown self.new ≡ record (shown self.old) {
          paging = with_named (shown self.old).paging
              (record { direction = direction; passes = k - 1; fails = n });
        } }
        ensures loans { loans self.new ≡ loans self.old };

    // ---- looking

    /// The machine, with the slots that there are now.
    fn machine(&self) -> Machine
        ensures { result ≡ (shown self.now).life.machine };

    /// The number of the line that began last, counted from 1.
    fn line(&self) -> u32
        ensures { result ≡ (shown self.now).life.line };

    /// The kind of the line that began last.
    fn kind(&self) -> LineKind
        ensures { result ≡ (shown self.now).life.kind };

    /// Whether a process of this pid is open.
    fn is_open(&self, pid: Pid) -> bool
        ensures { result ≡ (shown self.now).is_open pid.0 };

    /// Where the bytes of a key stand, or that it is not live. Its place is bound, or its index is
    /// one of an open area.
    fn stands(&self, key: Key) -> Held
        requires { HasEntry (shown self.now).bound (shown self.now).areas key }
        ensures { result ≡ (shown self.now).life.stands key };

    /// The frame that a bound place is valid for, if it is valid.
    fn valid(&self, place: Place) -> Option<Frame>
        requires { (shown self.now).bound place ≡ true }
        ensures { result ≡ (shown self.now).life.valid place };

    /// What is kept of a frame.
    fn look(&self, f: Frame) -> Record
        requires { f.0 < (shown self.now).life.machine.frames }
        ensures { result ≡ record_at (shown self.now).life.frames f.0 };

    /// Whether no frame is zeroed.
    fn no_zeroed(&self) -> bool
        ensures { result ≡ is_empty (shown self.now).life.frames.zeroed };

    /// Whether no frame is free.
    fn no_free(&self) -> bool
        ensures { result ≡ is_empty (shown self.now).life.frames.free };

    /// Whether no frame is on standby.
    fn no_standby(&self) -> bool
        ensures { result ≡ is_empty (shown self.now).life.frames.standby };

    /// The first modified frame; `None` exactly where none is modified.
    fn front_modified(&self) -> Option<Frame>
        ensures first { option_map (λ f. f.0) result ≡
            slice_get (shown self.now).life.frames.modified 0 }
        ensures there { IfSome result (λ f. f.0 < (shown self.now).life.machine.frames) }
        ensures rests { IfSome result
            (λ f. IsAtRest true (record_at (shown self.now).life.frames f.0)) };

    /// How many modified frames have a block as backing. The others are written to slots.
    fn modified_with_block(&self) -> u32
        ensures { result ≡ length (modified_with_block (shown self.now).life.frames) };

    /// The first modified frame that has a block as backing; `None` exactly where none has.
    fn front_modified_with_block(&self) -> Option<Frame>
        ensures first { option_map (λ f. f.0) result ≡
            slice_get (modified_with_block (shown self.now).life.frames) 0 }
        ensures there { IfSome result (λ f. f.0 < (shown self.now).life.machine.frames) }
        ensures rests { IfSome result
            (λ f. IsAtRest true (record_at (shown self.now).life.frames f.0)) }
        ensures block { IfSome result
            (λ f. has_block (record_at (shown self.now).life.frames f.0).backing ≡ true) };

    /// How many slots are free.
    fn free_slots(&self) -> u32
        ensures { result ≡ count_by (λ b. b) (shown self.now).life.free_slots };

    /// How many frames stand where, how many slots are free, and how many requests there are, the
    /// line's own among them.
    fn counts(&self) -> Counts
        ensures { result ≡ counts_of (shown self.now).life };

    /// How many places of a process are valid.
    fn valid_places(&self, pid: Pid) -> u32
        requires { is_some (set_of (shown self.now).life pid.0) ≡ true }
        ensures { option_map (λ s. s.resident) (set_of (shown self.now).life pid.0) ≡ Some result };

    /// The fewest pages, down to which a working set is trimmed.
    fn min(&self, pid: Pid) -> u32
        requires { is_some (set_of (shown self.now).life pid.0) ≡ true }
        ensures { option_map (λ s. s.min) (set_of (shown self.now).life pid.0) ≡ Some result };

    /// Whether a working set is full: a page goes before the next comes.
    fn is_full(&self, pid: Pid) -> bool
        requires { is_some (set_of (shown self.now).life pid.0) ≡ true }
        ensures { result ≡ is_at_max (set_of (shown self.now).life pid.0) };

    /// Whether a working set has more pages than its least size.
    fn is_above_min(&self, pid: Pid) -> bool
        requires { is_some (set_of (shown self.now).life pid.0) ≡ true }
        ensures { result ≡ is_above_min (set_of (shown self.now).life pid.0) };

    /// The oldest page of an open process, or with a valid page the one that goes next after it;
    /// none where there is none. Among equal ages the lowest page goes first.
    fn oldest(&self, pid: Pid, after: Option<Vpn>) -> Option<Vpn>
        requires open { (shown self.now).is_open pid.0 ≡ true }
        requires held { ForSome after
            (λ v. is_some ((shown self.now).life.valid (place_from pid v)) ≡ true) }
        ensures next { MatchOption result
            (NoPageFollows (shown self.now).life (shown self.now).ages pid.0 (after_page pid after))
            (λ v. IsNextPage (shown self.now).life (shown self.now).ages (after_page pid after)
            (place_from pid v)) }
        ensures first { after ≡ None → IfSome result
            (λ v. IsOldest (shown self.now).life (shown self.now).ages None (place_from pid v)) };

    /// The lowest valid page of an open process at `from` or above; none where there is none.
    fn next_valid(&self, pid: Pid, from: Vpn) -> Option<Vpn>
        requires { (shown self.now).is_open pid.0 ≡ true }
        ensures { IsNextFrom (λ v. is_some ((shown self.now).life.valid (place_from pid (record {
          0 = v;
        })))) from.0 result };

    /// The frame of the i-th oldest request, counted from 1, the line's own among them. `None`
    /// comes at 0 and past the last.
    fn nth(&self, i: u32) -> Option<Frame>
        ensures { option_map (λ f. f.0) result ≡ nth_oldest i (shown self.now).life.flight };

    /// Whether there are fewer requests than the depth.
    fn has_depth(&self) -> bool
        ensures { result ≡ has_depth (shown self.now).life };

    /// How a thread's wait stands.
    fn outcome(&self, t: Tid) -> Wait
        ensures { result ≡ wait_of ((shown self.now).waits t.0) };

    /// Whether the sink of moves has failed.
    fn moves_failed(&self) -> bool
        ensures { result ≡ (shown self.now).log.failed };

    /// Gives on the moves that were noted. Nothing else changes but the log's count of faults,
    /// where that fails.
    fn flush_moves(&mut self) -> Result<(), Failed>
        ensures rest { shown self.new ≡ record (shown self.old) { log = (shown self.new).log } }
        ensures flushed { Flushed (shown self.old).log (shown self.new).log result }
        ensures loans { loans self.new ≡ loans self.old };

    /// What it keeps at all times.
    ghost holds: { (s : Self) → StateHolds (shown s) };
}
