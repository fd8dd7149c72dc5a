ghost use Rattle.std.specs.Prelude.{◌≡◌, ◌≢◌, ◌≤◌, ◌+◌, ℕ, true, false, Some, IsSome, length, is_some};
ghost use Rattle.mm_types.specs.{Frame};
ghost use Rattle.mm_move_rules.specs.{record_at, is_read, changed, same_place};
ghost use Rattle.mm_ram.specs.{bytes_of, bytes_from, overwritten, with_page, page_at};
ghost use Rattle.mm_parts.specs.{ages_older};

use crate::parts::Parts;
use mm_page_tables::Entry;
use mm_types::{Frame, Pid, Place};

impl Parts {
    ghost use Rattle.mm_parts.specs.{shown_parts};

    /// The frame of a valid place.
    fn frame_at(&self, place: Place) -> Frame
        requires { IsSome ((shown_parts self.now).life.valid place) }
        ensures frame { (shown_parts self.now).life.valid place ≡ Some result }
        ensures owned { is_some (record_at (shown_parts self.now).life.frames result.0).owner
            ≡ true }
        ensures calm { is_read (record_at (shown_parts self.now).life.frames result.0).request
            ≡ false }
    {
        self.words.words_hold();
        match self.words.at(place) {
            Entry::Valid(f, _) => f,
            _ => unreachable!(),
        }
    }

    /// Reads bytes of the page that is valid at a place, from `off` on. The page has age 0 then.
    pub fn read(&mut self, place: Place, off: u16, out: &mut [u8])
        requires valid { IsSome ((shown_parts self.old).life.valid place) }
        requires inside { off + length out.old ≤ 4096 }
        ensures bytes { (f : Frame) → (shown_parts self.old).life.valid place ≡ Some f →
            out.new ≡ bytes_from (bytes_of (shown_parts self.old).bytes f.0) off (length out.old) }
        ensures made { shown_parts self.new ≡ record (shown_parts self.old) {
          ages = changed same_place (shown_parts self.old).ages place 0;
        } }
    {
        let f = self.frame_at(place);
        self.frames.read(f, off, out);
        self.words.touch(place);
    }

    /// Writes bytes of the page that is valid at a place, from `off` on. The page has age 0 then.
    pub fn write(&mut self, place: Place, off: u16, bytes: &[u8])
        requires valid { IsSome ((shown_parts self.old).life.valid place) }
        requires inside { off + length bytes.now ≤ 4096 }
        ensures made { (f : Frame) → (shown_parts self.old).life.valid place ≡ Some f →
            shown_parts self.new ≡ record (shown_parts self.old) {
              ages = changed same_place (shown_parts self.old).ages place 0;
              bytes = with_page (shown_parts self.old).bytes f.0
                  (overwritten (bytes_of (shown_parts self.old).bytes f.0) off bytes.now);
            } }
    {
        let f = self.frame_at(place);
        self.frames.write(f, off, bytes);
        self.words.touch(place);
    }

    /// Copies the bytes of one frame to another; both have an owner, and no page is being read into
    /// them.
    pub fn copy(&mut self, from: Frame, to: Frame)
        requires from_owned { IsSome (record_at (shown_parts self.old).life.frames from.0).owner }
        requires from_calm { is_read (record_at (shown_parts self.old).life.frames from.0).request ≡
            false }
        requires to_owned { IsSome (record_at (shown_parts self.old).life.frames to.0).owner }
        requires to_calm { is_read (record_at (shown_parts self.old).life.frames to.0).request
            ≡ false }
        requires other { from.0 ≢ to.0 }
        ensures page { page_at (shown_parts self.new).bytes to.0 ≡ page_at
            (shown_parts self.old).bytes from.0 }
        ensures made { shown_parts self.new ≡ record (shown_parts self.old) {
          bytes = with_page (shown_parts self.old).bytes to.0
              (bytes_of (shown_parts self.old).bytes from.0);
        } }
    {
        self.frames.copy(from, to);
    }

    /// Each valid page of an open process is one older, up to 7.
    pub fn age_all(&mut self, pid: Pid)
        requires { (shown_parts self.old).is_open pid.0 ≡ true }
        ensures made { shown_parts self.new ≡ record (shown_parts self.old) {
          ages = ages_older (shown_parts self.old).life (shown_parts self.old).ages pid.0;
        } }
    {
        self.words.working_sets_hold();
        self.words.age_all(pid);
    }
}
