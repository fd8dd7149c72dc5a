ghost use Rattle.std.specs.Prelude.{◌≡◌, ◌≤◌, ◌<◌, ◌+◌, ◌^◌, ◌==◌, ℕ, true, false, Some, None, OnOk, OnErr, is_some};
ghost use Rattle.mm_types.specs.{first_user_page, end_of_user_pages};
ghost use Rattle.mm_types.specs.declared.numbers.Key.TheVariants.{Private, Shared};
ghost use Rattle.mm_types.specs.declared.frames.Held.TheVariants as held;
ghost use Rattle.mm_move_rules.specs.{changed, set_of};
ghost use Rattle.mm_page_tables.specs.{pages, changed_in, place_from};

use crate::parts::Parts;
use mm_types::{Area, NoMemory, Pid, Vpn};

impl Parts {
    ghost use Rattle.mm_parts.specs.{shown_parts};

    /// Opens a process that has begun, and takes the room of its working set. After `NoMemory`
    /// nothing has changed.
    pub fn open_process(&mut self, pid: Pid) -> Result<(), NoMemory>
        requires { is_some (set_of (shown_parts self.old).life pid.0) ≡ true }
        ensures ok { OnOk result (shown_parts self.new ≡ record (shown_parts self.old) {
          is_open = changed ◌==◌ (shown_parts self.old).is_open pid.0 true;
        }) }
        ensures err { OnErr result (shown_parts self.new ≡ shown_parts self.old) }
    {
        self.words.open_process(pid)
    }

    /// Closes an open process that has no bound place, and gives the room of its working set back.
    pub fn close_process(&mut self, pid: Pid)
        requires open { (shown_parts self.old).is_open pid.0 ≡ true }
        requires unbound { (v : ℕ) → (shown_parts self.old).bound (place_from pid (record {
          0 = v;
        })) ≡ false }
        ensures made { shown_parts self.new ≡ record (shown_parts self.old) {
          is_open = changed ◌==◌ (shown_parts self.old).is_open pid.0 false;
        } }
    {
        self.words.close_process(pid);
    }

    /// Binds `n` user pages of an open process from `first` on; those that were bound keep what
    /// they name. After `NoMemory` nothing has changed.
    pub fn bind(&mut self, pid: Pid, first: Vpn, n: u32) -> Result<(), NoMemory>
        requires open { (shown_parts self.old).is_open pid.0 ≡ true }
        requires low { first_user_page ≤ first.0 }
        requires high { first.0 + n ≤ end_of_user_pages }
        ensures ok { OnOk result (shown_parts self.new ≡ record (shown_parts self.old) {
          bound = changed_in (shown_parts self.old).bound pid.0 (pages first.0 n) true;
        }) }
        ensures err { OnErr result (shown_parts self.new ≡ shown_parts self.old) }
    {
        self.words.bind(pid, first, n)
    }

    /// Gives up `n` bound pages of a process from `first` on, none of which is valid or has a live
    /// private key. Nothing stands beside the tables. They name nothing from then on.
    pub fn unbind(&mut self, pid: Pid, first: Vpn, n: u32)
        requires open { (shown_parts self.old).is_open pid.0 ≡ true }
        requires bound { (v : ℕ) → first.0 ≤ v → v < first.0 + n →
            (shown_parts self.old).bound (place_from pid (record {
              0 = v;
            })) ≡ true }
        requires invalid { (v : ℕ) → first.0 ≤ v → v < first.0 + n →
            (shown_parts self.old).life.valid (place_from pid (record {
              0 = v;
            })) ≡ None }
        requires dead { (v : ℕ) → first.0 ≤ v → v < first.0 + n →
            (shown_parts self.old).life.stands (Private pid (record {
              0 = v;
            })) ≡ held.Dead }
        requires alone { (shown_parts self.old).aside ≡ None }
        ensures made { shown_parts self.new ≡ record (shown_parts self.old) {
          bound = changed_in (shown_parts self.old).bound pid.0 (pages first.0 n) false;
          names = changed_in (shown_parts self.old).names pid.0 (pages first.0 n) None;
        } }
    {
        self.words.unbind(pid, first, n);
    }

    /// Opens an area that is not open, of `n` pages, none of which is live. An area's number is
    /// below 2^28. After `NoMemory` nothing has changed.
    pub fn open_area(&mut self, area: Area, n: u32) -> Result<(), NoMemory>
        requires new { (shown_parts self.old).areas area.0 ≡ None }
        requires few { area.0 < 2 ^ 28 }
        ensures ok { OnOk result (shown_parts self.new ≡ record (shown_parts self.old) {
          areas = changed ◌==◌ (shown_parts self.old).areas area.0 (Some n);
        }) }
        ensures err { OnErr result (shown_parts self.new ≡ shown_parts self.old) }
    {
        self.words.open_area(area, n)
    }

    /// Closes an open area, none of whose pages is live.
    pub fn close_area(&mut self, area: Area)
        requires open { is_some ((shown_parts self.old).areas area.0) ≡ true }
        requires dead { (i : ℕ) → (shown_parts self.old).life.stands (Shared area i) ≡ held.Dead }
        ensures made { shown_parts self.new ≡ record (shown_parts self.old) {
          areas = changed ◌==◌ (shown_parts self.old).areas area.0 None;
        } }
    {
        self.words.close_area(area);
    }
}
