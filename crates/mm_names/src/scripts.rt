ghost use Rattle.std.specs.Prelude.{◌≡◌, ◌∷◌, [], List, Some, length, IfOk, OnOk};
ghost use Rattle.mm_types.specs.{Event, Text};
ghost use Rattle.mm_names.specs.Scripts.{may_stand, placed_line, written_lines_from, written_lines, without_mark, script_in, IsScript, ArePlain};
ghost use Rattle.mm_script.specs.{is_machine};
ghost use Rattle.mm_names.specs.Stages.{unread, with_event, with_meaning, with_written_line, with_lines, is_whole, ScriptEnds};

use crate::meanings::{Meaning, meant};
use crate::names::Names;
use mm_script::print_event;
use mm_text::LineBuf;
use mm_types::{AccessSpec, Event, Name, NoMemory};
use std::alloc::Global;
use std::marker::Model;

/// Whether an event is a `machine` line.
fn is_machine(event: &Event) -> bool
    ensures { result ≡ is_machine event.now }
{
    match event {
        Event::Machine(_) => true,
        _ => false,
    }
}

/// Whether an event may stand in a script that has begun, or has not.
pub fn may_stand(begun: bool, event: &Event) -> bool
    ensures { result ≡ may_stand begun event.now }
{
    if begun {
        !is_machine(event)
    } else {
        is_machine(event)
    }
}

/// A text without the UTF-8 mark that may stand in front.
pub fn without_mark(text: &[u8]) -> &[u8]
    ensures { result.now ≡ without_mark text.now }
{
    match text {
        [0xEF, 0xBB, 0xBF, rest @ ..] => rest,
        _ => text,
    }
}

/// A script as it is written, line by line.
#[derive(Drop)]
pub struct Script {
    names: Names,
    begun: bool,
    clean: bool,
    text: Vec<u8>,
    /// For each line of the script the written line that it comes from, counted from 1.
    origins: Vec<u32>,
    /// How many lines were read.
    number: u32,
}

impl Model for Script {
    ghost use Rattle.std.specs.Prelude.{length};
    ghost use Rattle.mm_names.specs.Stages.{ScriptOf};

    ghost Value = { ScriptOf };

    ghost view = { λ s. record {
      names = s.names;
      begun = s.begun;
      clean = s.clean;
      text = s.text.items;
      lines = length s.origins.items;
    } };
}

impl Script {
    /// Nothing was read.
    pub fn new(alloc: Global) -> Script
        ensures { result ≡ unread }
    {
        Script {
            names: Names::new(alloc),
            begun: false,
            clean: true,
            text: Vec::new(alloc),
            origins: Vec::new(alloc),
            number: 0,
        }
    }

    /// Whether every line means something, and one means an event.
    pub fn is_whole(&self) -> bool
        ensures { result ≡ is_whole self.now }
    {
        self.clean && self.begun
    }

    /// The script's lines.
    pub fn text(&self) -> &[u8]
        ensures { result.now ≡ self.now.text }
    {
        self.text.as_slice()
    }

    /// For each line of the script the written line that it comes from, counted from 1.
    pub fn origins(&self) -> &[u32]
        ensures { length result.now ≡ self.now.lines }
    {
        self.origins.as_slice()
    }

    /// The line of an event.
    fn put(&mut self, event: &Event) -> Result<(), NoMemory>
        ensures { OnOk result (self.new ≡ with_event self.old event.now) }
    {
        let mut line = LineBuf::new();
        print_event(event, &mut line);
        self.text.extend_from_slice(line.as_slice())?;
        self.text.push(b'\n')?;
        self.origins.push(self.number)?;
        self.begun = true;
        Ok(())
    }

    /// An event, where it may stand here.
    fn say(&mut self, event: &Event) -> Result<(), NoMemory>
        ensures { OnOk result (self.new
            ≡ with_meaning self.old (placed_line self.old.begun (Meaning.Says event.now))) }
    {
        if may_stand(self.begun, event) {
            return self.put(event);
        }
        self.clean = false;
        Ok(())
    }

    /// A line of this meaning.
    fn take(&mut self, meaning: &Meaning) -> Result<(), NoMemory>
        ensures { OnOk result (self.new
            ≡ with_meaning self.old (placed_line self.old.begun meaning.now)) }
    {
        match meaning {
            Meaning::Nothing => Ok(()),
            Meaning::Gives(given) => self.names.give(given),
            Meaning::Says(event) => self.say(event),
            Meaning::Wrong => {
                self.clean = false;
                Ok(())
            }
        }
    }

    /// A written line, without its line feed.
    pub fn take_line(&mut self, alloc: Global, line: &[u8]) -> Result<(), NoMemory>
        ensures { OnOk result (self.new ≡ with_written_line self.old line.now) }
    {
        // The check of a meaning that is let go wants the types inside an event named here.
        let _event: Option<Event> = None;
        let _name: Option<Name> = None;
        let _access: Option<AccessSpec> = None;
        self.number = self.number.saturating_add(1);
        let meaning = meant(alloc, &self.names, line)?;
        self.take(&meaning)
    }
}

/// A byte of a written file: the line that has begun, or its end.
fn take_byte(
    script: &mut Script,
    line: &mut Vec<u8>,
    alloc: Global,
    byte: u8,
) -> Result<(), NoMemory>
    ensures { OnOk result ((rest : Text)
        → with_lines script.old (written_lines_from line.old.items (byte ∷ rest))
        ≡ with_lines script.new (written_lines_from line.new.items rest)) }
{
    if byte == b'\n' {
        script.take_line(alloc, line.as_slice())?;
        line.clear();
    } else {
        line.push(byte)?;
    }
    Ok(())
}

/// Reads all lines of a text.
fn read_lines(alloc: Global, text: &[u8]) -> Result<Script, NoMemory>
    ensures { IfOk result (λ s. s ≡ with_lines unread (written_lines_from [] text.now)) }
{
    let mut script = Script::new(alloc);
    let mut line = Vec::new(alloc);
    for byte in text {
        take_byte(&mut script, &mut line, alloc, *byte)?;
    }
    if !line.is_empty() {
        script.take_line(alloc, line.as_slice())?;
    }
    Ok(script)
}

/// The script that a written file means, as far as its lines mean something.
#[tactic(auto, using(crate::proofs::Story::story))]
pub fn translated(alloc: Global, text: &[u8]) -> Result<Script, NoMemory>
    ensures { IfOk result (λ s. ScriptEnds (script_in text.now) s) }
{
    read_lines(alloc, without_mark(text))
}

/// What a file means is a script: its first event is a `machine`, and no other is.
#[tactic(auto, using(crate::proofs::Opening::opening))]
pub fn scripts_begin()
    ensures { (text : Text) (events : List Event) → script_in text ≡ Some events → IsScript events }
{}

/// A file of lines that `mmsim` takes means their events, where these are a script.
#[tactic(auto, using(crate::proofs::Opening::opening))]
pub fn plain_files_stay()
    ensures { (text : Text) (events : List Event)
        → ArePlain (written_lines text) events → IsScript events
        → script_in text ≡ Some events }
{}
