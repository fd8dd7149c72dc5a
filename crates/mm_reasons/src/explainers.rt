ghost use Rattle.std.specs.Prelude.{◌≡◌, ◌==◌, [], false, true, OnOk};
ghost use Rattle.mm_reasons.specs.Talks.{hearing_after};
ghost use Rattle.mm_names.specs.{no_names};
ghost use Rattle.mm_names.specs.declared.meanings.Meaning.TheVariants as meaning;

use crate::reasons::{is_near_machine, put_reason};
use crate::texts::Piece::{Number, Text};
use crate::texts::{put, put_form};
use crate::warnings::{put_line_warning, put_warning};
use mm_names::{Meaning, Names, may_stand, meant, without_mark};
use mm_types::{AccessSpec, Event, Name, NoMemory};
use std::alloc::Global;
use std::marker::Model;

/// The most faults that are told of a file, and the most warnings.
const MOST_TOLD: u32 = 20;

/// Reads a written file again and tells what is wrong with its lines.
#[derive(Drop)]
pub(crate) struct Explainer {
    names: Names,
    begun: bool,
    /// How many lines were read.
    number: u32,
    faults: u32,
    warnings: u32,
    /// Whether a line that may not stand here is left out, so that the script has not begun with
    /// it.
    leaves_out: bool,
    out: Vec<u8>,
}

impl Model for Explainer {
    ghost use Rattle.std.specs.Prelude.{◌==◌};
    ghost use Rattle.mm_reasons.specs.Talks.{HearingOf};

    ghost Value = { HearingOf };

    ghost view = { λ s. record {
      names = s.names;
      begun = s.begun;
      fresh = s.number == 0;
      leaves_out = s.leaves_out;
    } };
}

impl Explainer {
    /// Nothing was read.
    pub(crate) fn new(alloc: Global, leaves_out: bool) -> Explainer
        ensures { result ≡ record {
          names = no_names;
          begun = false;
          fresh = true;
          leaves_out = leaves_out;
        } }
    {
        Explainer {
            names: Names::new(alloc),
            begun: false,
            number: 0,
            faults: 0,
            warnings: 0,
            leaves_out,
            out: Vec::new(alloc),
        }
    }

    /// What was told.
    pub(crate) fn text(&self) -> &[u8] {
        self.out.as_slice()
    }

    /// What was told was written.
    pub(crate) fn clear(&mut self)
        ensures { self.new ≡ self.old }
    {
        self.out.clear();
        self.faults = 0;
        self.warnings = 0;
    }

    /// Whether an event came.
    pub(crate) fn begun(&self) -> bool
        ensures { result ≡ self.now.begun }
    {
        self.begun
    }

    /// Whether no line was read.
    pub(crate) fn is_new(&self) -> bool
        ensures { result ≡ self.now.fresh }
    {
        self.number == 0
    }

    /// The names that the lines gave.
    pub(crate) fn names(&self) -> &Names
        ensures { result.now ≡ self.now.names }
    {
        &self.names
    }

    /// A line was read.
    fn count(&mut self)
        ensures { self.new ≡ record self.old { fresh = false } }
    {
        self.number = self.number.saturating_add(1);
    }

    /// A fault of this reason, unless enough were told.
    fn fault(&mut self, reason: &[u8]) -> Result<(), NoMemory>
        ensures { self.new ≡ self.old }
    {
        if self.faults >= MOST_TOLD {
            return Ok(());
        }
        self.faults += 1;
        let number = Number(u64::from(self.number));
        put_form(&mut self.out, b"line %%\n", &[number, Text(reason)])
    }

    /// A warning of what an event or its line says, unless enough were told.
    fn warn(&mut self, alloc: Global, event: &Event, line: &[u8]) -> Result<(), NoMemory>
        ensures { self.new ≡ self.old }
    {
        let mut warning: Vec<u8> = Vec::new(alloc);
        put_warning(&mut warning, event)?;
        if warning.is_empty() {
            put_line_warning(&mut warning, alloc, line)?;
        }
        if warning.is_empty() || self.warnings >= MOST_TOLD {
            return Ok(());
        }
        self.warnings += 1;
        let number = Number(u64::from(self.number));
        let said = Text(warning.as_slice());
        put_form(&mut self.out, b"warning: line %: %\n", &[number, said])
    }

    /// A line that means an event.
    fn say(&mut self, alloc: Global, event: &Event, line: &[u8]) -> Result<(), NoMemory>
        ensures { OnOk result (self.old.leaves_out ≡ true → self.old.fresh ≡ false →
            self.new ≡ hearing_after self.old (meaning.Says event.now)) }
    {
        if may_stand(self.begun, event) {
            self.begun = true;
            return self.warn(alloc, event, line);
        }
        if self.begun {
            return self.fault(b": a second 'machine'; a script has one, in its first line");
        }
        self.begun = !self.leaves_out;
        self.fault(b": a script begins with 'machine'")
    }

    /// A line that means nothing. One that was to be the `machine` makes no second message.
    fn refuse(&mut self, alloc: Global, line: &[u8]) -> Result<(), NoMemory>
        ensures { self.old.leaves_out ≡ true → self.new ≡ self.old }
    {
        if !self.begun && !self.leaves_out {
            self.begun = is_near_machine(alloc, line)?;
        }
        let mut reason: Vec<u8> = Vec::new(alloc);
        put_reason(&mut reason, alloc, &self.names, line)?;
        self.fault(reason.as_slice())
    }

    /// A line of this meaning.
    fn take(&mut self, alloc: Global, meaning: &Meaning, line: &[u8]) -> Result<(), NoMemory>
        ensures { OnOk result (self.old.leaves_out ≡ true → self.old.fresh ≡ false →
            self.new ≡ hearing_after self.old meaning.now) }
    {
        match meaning {
            Meaning::Nothing => Ok(()),
            Meaning::Gives(given) => self.names.give(given),
            Meaning::Says(event) => self.say(alloc, event, line),
            Meaning::Wrong => self.refuse(alloc, line),
        }
    }

    /// A written line of this meaning, without its line feed.
    pub(crate) fn explain(
        &mut self,
        alloc: Global,
        meaning: &Meaning,
        line: &[u8],
    ) -> Result<(), NoMemory>
        ensures { OnOk result (self.old.leaves_out ≡ true →
            self.new ≡ hearing_after self.old meaning.now) }
    {
        self.count();
        self.take(alloc, meaning, line)
    }

    /// A written line, without its line feed.
    fn take_line(&mut self, alloc: Global, line: &[u8]) -> Result<(), NoMemory> {
        // The check of a meaning that is let go wants the types inside an event named here.
        let _event: Option<Event> = None;
        let _name: Option<Name> = None;
        let _access: Option<AccessSpec> = None;
        let meaning = meant(alloc, &self.names, line)?;
        self.explain(alloc, &meaning, line)
    }

    /// The end of a file.
    fn finish(&mut self) -> Result<(), NoMemory> {
        if self.begun || self.faults > 0 {
            return Ok(());
        }
        put(&mut self.out, b"line 1: a script begins with 'machine'\n")
    }
}

/// Whether a text is UTF-16, by its mark or by a byte of 0 near its beginning.
fn is_utf_16(text: &[u8]) -> bool {
    match text {
        [0xFF, 0xFE, ..] => true,
        [0xFE, 0xFF, ..] => true,
        [_, 0, ..] => true,
        [0, _, ..] => true,
        _ => false,
    }
}

/// What is wrong with a written file.
pub(crate) fn explained(alloc: Global, text: &[u8]) -> Result<Explainer, NoMemory> {
    let mut explainer = Explainer::new(alloc, false);
    if is_utf_16(text) {
        explainer.number = 1;
        explainer.fault(b": the file is UTF-16; save it as UTF-8")?;
        return Ok(explainer);
    }
    let mut line: Vec<u8> = Vec::new(alloc);
    for byte in without_mark(text) {
        if *byte == b'\n' {
            explainer.take_line(alloc, line.as_slice())?;
            line.clear();
        } else {
            line.push(*byte)?;
        }
    }
    if !line.is_empty() {
        explainer.take_line(alloc, line.as_slice())?;
    }
    explainer.finish()?;
    Ok(explainer)
}
