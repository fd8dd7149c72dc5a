ghost use Rattle.std.specs.Prelude.{◌≡◌, Bool, List};
ghost use Rattle.mm_types.specs.{Move};
ghost use Rattle.mm_move_rules.specs.{unstarted};
ghost use Rattle.mm_sentences.specs.{why_not};
ghost use Rattle.mm_events.specs.Events.{events};
ghost use Rattle.mm_events.specs.EventRest.{events_rest};

use crate::rows::{Noted, note, put_waiting};
use mm_csv::put_head_left;
use mm_log_walk::{Classifier, Lines, Teller};
use mm_replay::Life;
use mm_sentences::put_why;
use mm_transcripts::{Ages, follow_ages, reason_then};
use mm_types::{Move, NoMemory};
use std::alloc::Global;

/// The names of the columns.
const HEAD: &[u8] = b"line,kind,class,process,page,address,key,frame,from,to,reason\n";

/// Tells events. The row of a move is written when the next move comes, since its class and what
/// becomes of its frame are known then.
#[derive(Drop)]
pub struct EventTeller<'a> {
    script: &'a Option<Lines>,
    answers: &'a Option<Lines>,
    /// Whether the head stands.
    begun: bool,
    classifier: Classifier,
    /// What was noted of the move that waits for its class.
    waiting: Option<Noted>,
    ages: Ages,
    /// Room for a field, which is not made anew for each.
    room: Vec<u8>,
}

impl<'a> EventTeller<'a> {
    /// A teller at the beginning of a log. `script` and `answers` are those of the log's run, if they
    /// are named.
    pub fn new(
        alloc: Global,
        script: &'a Option<Lines>,
        answers: &'a Option<Lines>,
    ) -> EventTeller<'a>
        ensures { (whole : Bool) (moves : List Move) → events_rest result whole unstarted moves
            ≡ events script.now answers.now whole moves }
    {
        EventTeller {
            script,
            answers,
            begun: false,
            classifier: Classifier::new(alloc),
            waiting: None,
            ages: Ages::new(alloc),
            room: Vec::new(alloc),
        }
    }
}

impl<'a> Teller for EventTeller<'a> {
    ghost rest = { events_rest };

    ghost counted = { λ t. 0 };

    ghost why = { why_not };

    fn take(&mut self, life: &Life, m: &Move, text: &mut Vec<u8>) -> Result<(), NoMemory> {
        put_head_left(self.begun, HEAD, text)?;
        self.begun = true;
        let before = self.classifier.next(life, m)?;
        put_waiting(&self.waiting, before, life, &mut self.room, text)?;
        let reason = reason_then(self.script, self.answers, &self.ages, life, m);
        self.waiting = Some(note(life, m, reason));
        follow_ages(self.script, self.answers, m, &mut self.ages)?;
        Ok(())
    }

    fn finish(&mut self, _whole: bool, life: &Life, text: &mut Vec<u8>) -> Result<(), NoMemory> {
        put_head_left(self.begun, HEAD, text)?;
        let last = self.classifier.last();
        put_waiting(&self.waiting, last, life, &mut self.room, text)?;
        Ok(())
    }

    fn tell_why(&self, life: &Life, m: &Move, text: &mut Vec<u8>) -> Result<(), NoMemory> {
        put_why(life, m, text)
    }
}
