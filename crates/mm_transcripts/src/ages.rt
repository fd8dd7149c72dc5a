ghost use Rattle.std.specs.Prelude.{◌≡◌, ◌≤◌, OnOk, IfSome, option_map, slice_index};
ghost use Rattle.indexmap.specs.IndexMap.{get};
ghost use Rattle.mm_move_rules.specs.{same_place};
ghost use Rattle.mm_replay.specs.Standing.{life as life_of};
ghost use Rattle.mm_transcripts.specs.Ages.{no_ages_known, age_begun, age_ended, touched, process_aged, keeping};
ghost use Rattle.mm_transcripts.specs.Ages.{ages_after_move};
ghost use Rattle.mm_transcripts.specs.Keeping.{AreTouchedBefore};
ghost use Rattle.mm_transcripts.specs.Lines.{begins_with_ok, is_pending, page_at_address, address_of_access, after_access};
ghost use Rattle.mm_transcripts.specs.Lines.{after_begin, touched_if, after_resume, after_age};
ghost use Rattle.mm_transcripts.specs.Lines.{after_event, after_script_line, after_line};
ghost use Rattle.mm_transcripts.specs.Reasons.{reason_at};

use crate::reasons::{Reason, is_above_min};
use crate::stamps::{count_of, drop_page, kept_by, make_older, set_kept, stamp_of, touch_page};
use indexmap::IndexMap;
use mm_replay::Life;
use mm_script::parse_line;
use mm_types::{AccessSpec, Event, Move, NoMemory, Pid, Place, Tid, Vpn};
use std::alloc::Global;

/// The ages of the valid pages, 0 to 7, where a log is told move by move with its script and the
/// answers beside it. Memory is in proportion to the valid pages.
#[derive(Drop)]
pub struct Ages {
    /// How many `age` lines of its process there were at the last touch of each valid page.
    stamps: IndexMap<Place, u64>,
    /// How many there are of each process.
    counts: [u64; 256],
    /// The page of the access that each thread keeps.
    kept: IndexMap<Tid, Place>,
    ghost earlier: { AreTouchedBefore (slice_index counts) (get same_place stamps) },
}

fn begins_with_ok(answer: &[u8]) -> bool
    ensures { result ≡ begins_with_ok answer.now }
{
    answer.starts_with(b"ok".as_slice())
}

fn is_pending(answer: &[u8]) -> bool
    ensures { result ≡ is_pending answer.now }
{
    answer.starts_with(b"pending".as_slice())
}

/// The page of an address.
fn page_at_address(pid: Pid, addr: u32) -> Place
    ensures { result ≡ page_at_address pid addr }
{
    Place {
        pid,
        vpn: Vpn(addr / 4096),
    }
}

fn address_of_access(access: &AccessSpec) -> u32
    ensures { result ≡ address_of_access access.now }
{
    match access {
        AccessSpec::Read { addr, .. } => *addr,
        AccessSpec::Write { addr, .. } => *addr,
    }
}

#[tactic(auto, using(crate::proofs::Aged::aged))]
impl Ages {
    ghost use Rattle.mm_transcripts.specs.Shown.{ages_shown};

    /// Before a log: no page is valid.
    pub fn new(alloc: Global) -> Ages
        ensures { ages_shown result ≡ no_ages_known }
    {
        Ages {
            stamps: IndexMap::new(alloc),
            counts: [0; 256],
            kept: IndexMap::new(alloc),
        }
    }

    /// The age of a page, 0 to 7; `None` where it is not valid.
    pub(crate) fn age(&self, place: Place) -> Option<u64>
        ensures age { result ≡ (ages_shown self.now).age place }
        ensures most { IfSome result (λ age. age ≤ 7) }
    {
        match stamp_of(&self.stamps, place) {
            Some(stamp) => Some((count_of(&self.counts, place.pid) - stamp).min(7)),
            None => None,
        }
    }

    /// A page is mapped.
    fn map(&mut self, place: Place) -> Result<(), NoMemory>
        ensures { OnOk result (ages_shown self.new ≡ age_begun place (ages_shown self.old)) }
    {
        touch_page(&mut self.stamps, &self.counts, place)
    }

    /// A page is unmapped.
    fn unmap(&mut self, place: Place)
        ensures { ages_shown self.new ≡ age_ended place (ages_shown self.old) }
    {
        drop_page(&mut self.stamps, &self.counts, place);
    }

    /// An access was answered `ok`.
    fn touch(&mut self, place: Place) -> Result<(), NoMemory>
        ensures { OnOk result (ages_shown self.new ≡ touched place (ages_shown self.old)) }
    {
        if self.age(place).is_none() {
            return Ok(());
        }
        self.map(place)
    }

    /// The pages of a process are one older.
    fn grow_older(&mut self, pid: Pid) -> Result<(), NoMemory>
        ensures { OnOk result (ages_shown self.new ≡ process_aged pid (ages_shown self.old)) }
    {
        make_older(&self.stamps, &mut self.counts, pid)
    }

    /// A thread keeps an access.
    fn keep(&mut self, tid: Tid, place: Place) -> Result<(), NoMemory>
        ensures { OnOk result (ages_shown self.new ≡ keeping tid place (ages_shown self.old)) }
    {
        set_kept(&mut self.kept, tid, place)
    }

    fn access(&mut self, place: Place, answer: &[u8]) -> Result<(), NoMemory>
        ensures { OnOk result (ages_shown self.new
            ≡ after_access place answer.now (ages_shown self.old)) }
    {
        if !begins_with_ok(answer) {
            return Ok(());
        }
        self.touch(place)
    }

    fn begin(&mut self, tid: Tid, place: Place, answer: &[u8]) -> Result<(), NoMemory>
        ensures { OnOk result (ages_shown self.new
            ≡ after_begin tid place answer.now (ages_shown self.old)) }
    {
        if begins_with_ok(answer) {
            return self.touch(place);
        }
        if is_pending(answer) {
            return self.keep(tid, place);
        }
        Ok(())
    }

    fn touch_kept(&mut self, tid: Tid) -> Result<(), NoMemory>
        ensures { OnOk result (ages_shown self.new
            ≡ touched_if ((ages_shown self.old).kept tid) (ages_shown self.old)) }
    {
        match kept_by(&self.kept, tid) {
            Some(place) => self.touch(place),
            None => Ok(()),
        }
    }

    fn resume(&mut self, tid: Tid, answer: &[u8]) -> Result<(), NoMemory>
        ensures { OnOk result
            (ages_shown self.new ≡ after_resume tid answer.now (ages_shown self.old)) }
    {
        if !begins_with_ok(answer) {
            return Ok(());
        }
        self.touch_kept(tid)
    }

    fn age_line(&mut self, pid: Pid, answer: &[u8]) -> Result<(), NoMemory>
        ensures { OnOk result (ages_shown self.new ≡ after_age pid answer.now (ages_shown self.old)) }
    {
        if !begins_with_ok(answer) {
            return Ok(());
        }
        self.grow_older(pid)
    }

    /// What a line was answered.
    fn event(&mut self, event: &Event, answer: &[u8]) -> Result<(), NoMemory>
        ensures { OnOk result (ages_shown self.new
            ≡ after_event event.now answer.now (ages_shown self.old)) }
    {
        match event {
            Event::Read { pid, addr, .. } => self.access(page_at_address(*pid, *addr), answer),
            Event::Write { pid, addr, .. } => self.access(page_at_address(*pid, *addr), answer),
            Event::Exec { pid, addr } => self.access(page_at_address(*pid, *addr), answer),
            Event::Begin { tid, pid, access } => {
                self.begin(
                    *tid,
                    page_at_address(*pid, address_of_access(access)),
                    answer,
                )
            }
            Event::Resume { tid } => self.resume(*tid, answer),
            Event::Age { pid } => self.age_line(*pid, answer),
            _ => Ok(()),
        }
    }

    #[tactic(auto, unfolding(crate::specs::Lines::after_script_line))]
    fn read_line(&mut self, line: &[u8], answer: &[u8]) -> Result<(), NoMemory>
        ensures { OnOk result (ages_shown self.new
            ≡ after_script_line line.now answer.now (ages_shown self.old)) }
    {
        if line.len() > 256 {
            return Ok(());
        }
        match parse_line(line) {
            Ok(event) => self.event(&event, answer),
            Err(_) => Ok(()),
        }
    }

    /// A line begins: it stands so in the script, and this is its answer. Nothing changes where one
    /// of them is missing. The only error is that memory is refused.
    pub(crate) fn line(
        &mut self,
        line: Option<&[u8]>,
        answer: Option<&[u8]>,
    ) -> Result<(), NoMemory>
        ensures { OnOk result (ages_shown self.new ≡ after_line (option_map (λ l. l.now) line.entry)
            (option_map (λ a. a.now) answer.entry) (ages_shown self.old)) }
    {
        match (line, answer) {
            (Some(line), Some(answer)) => self.read_line(line, answer),
            _ => Ok(()),
        }
    }

    /// A move is made. The only error is that memory is refused.
    pub(crate) fn moved(&mut self, m: &Move) -> Result<(), NoMemory>
        ensures { OnOk result (ages_shown self.new ≡ ages_after_move m.now (ages_shown self.old)) }
    {
        match *m {
            Move::Map(_, place) => self.map(place),
            Move::Unmap(place) => {
                self.unmap(place);
                Ok(())
            }
            _ => Ok(()),
        }
    }

    /// How a page stood that this move takes from its working set; `None` for other moves. `life`
    /// is the replay before the move, and the ages are those before it.
    pub(crate) fn reason(&self, life: &Life, m: &Move) -> Option<Reason>
        ensures { result ≡ reason_at (ages_shown self.now) (life_of life.now) m.now }
    {
        match *m {
            Move::Unmap(place) => Some(Reason {
                pid: place.pid,
                is_above_min: is_above_min(life.set_of(place.pid)),
                age: self.age(place).unwrap_or(0),
            }),
            _ => None,
        }
    }
}
