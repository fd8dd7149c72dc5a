ghost use Rattle.std.specs.Prelude.{◌≡◌, ◌≤◌, ◌<◌, ◌+◌, ◌^◌, ◌++◌, ◌∷◌, [], ℕ, List, Option};
ghost use Rattle.std.specs.Prelude.{OnOk, true, flat_map, replicate, slice_index, slice_set};
ghost use Rattle.std.specs.Prelude.{length};
ghost use Rattle.mm_types.specs.{Move};
ghost use Rattle.mm_move_rules.specs.{unstarted};
ghost use Rattle.mm_replay.specs.Standing.{life as life_of};
ghost use Rattle.mm_move_classes.specs.{Class};
ghost use Rattle.mm_log_walk.specs.{class_list};
ghost use Rattle.mm_show.specs.Sums.{counted_row, class_sum_row, kind_row, class_sums, kind_sums};
ghost use Rattle.mm_show.specs.Sums.{kind_name_text, kind_letter};
ghost use Rattle.mm_show.specs.Sums.{sums_text, code_count};
ghost use Rattle.mm_show.specs.Counted.{of_class, of_kind, AreBounded};
ghost use Rattle.mm_sentences.specs.{why_not};

use crate::words::CLASSES;
use mm_log_walk::{Classed, Classifier, Teller};
use mm_move_classes::{Class, code, kind_code};
use mm_replay::Life;
use mm_sentences::put_why;
use mm_text::{LineBuf, put_decimal};
use mm_types::{Move, NoMemory};
use std::alloc::Global;

/// The kind of a line, without its numbers.
#[derive(Clone, Copy, PartialEq, Eq)]
pub(crate) enum KindName {
    Machine,
    Process,
    Grow,
    Access,
    Thread,
    Trim,
    Unbind,
    Writer,
    Zeroer,
    Io,
    Call,
}

/// The kinds, in the order in which they are told.
const KINDS: [KindName; 11] = [
    KindName::Machine,
    KindName::Process,
    KindName::Grow,
    KindName::Access,
    KindName::Thread,
    KindName::Trim,
    KindName::Unbind,
    KindName::Writer,
    KindName::Zeroer,
    KindName::Io,
    KindName::Call,
];

fn kind_name_text(kind: KindName) -> &'static [u8]
    ensures text { result.now ≡ kind_name_text kind }
    ensures few { length result.now ≤ 20 }
{
    match kind {
        KindName::Machine => b"at machine",
        KindName::Process => b"at process",
        KindName::Grow => b"at grow",
        KindName::Access => b"at access",
        KindName::Thread => b"at thread",
        KindName::Trim => b"at trim",
        KindName::Unbind => b"at unbind",
        KindName::Writer => b"at writer",
        KindName::Zeroer => b"at zeroer",
        KindName::Io => b"at io",
        KindName::Call => b"at call",
    }
}

fn kind_letter(kind: KindName) -> u8
    ensures { result ≡ kind_letter kind }
{
    match kind {
        KindName::Machine => b'M',
        KindName::Process => b'P',
        KindName::Grow => b'N',
        KindName::Access => b'a',
        KindName::Thread => b't',
        KindName::Trim => b'r',
        KindName::Unbind => b'u',
        KindName::Writer => b'w',
        KindName::Zeroer => b'z',
        KindName::Io => b'i',
        KindName::Call => b'c',
    }
}

/// Writes how many there are of something, if there is one.
#[tactic(auto, using(mm_text::proofs::DigitCounts::joined))]
fn put_row(name: &[u8], n: u64, text: &mut Vec<u8>) -> Result<(), NoMemory>
    requires { length name.now ≤ 20 }
    ensures { OnOk result (text.new.items ≡ text.old.items ++ counted_row name.now n) }
{
    if n == 0 {
        return Ok(());
    }
    let mut line = LineBuf::new();
    line.push_slice(name);
    line.push(b' ');
    put_decimal(&mut line, n);
    line.push(b'\n');
    text.extend_from_slice(line.as_slice())?;
    Ok(())
}

/// One more of a letter.
fn count(counts: &mut [u64; 256], letter: u8)
    requires { (k : ℕ) → slice_index counts.old k + 1 < 2 ^ 64 }
    ensures { counts.new ≡ slice_set counts.old letter (slice_index counts.old letter + 1) }
{
    counts[letter as usize] += 1;
}

/// One more of the class, if any.
#[tactic(auto, using(crate::proofs::Summed::summed))]
fn count_class(classes: &mut [u64; 256], class: Option<Class>)
    requires { (k : ℕ) → slice_index classes.old k + 1 < 2 ^ 64 }
    ensures counts { (cs : List (Option Class)) (c : Class) → of_class classes.new cs c
        ≡ of_class classes.old (class ∷ cs) c }
    ensures few { (k : ℕ) → slice_index classes.new k ≤ slice_index classes.old k + 1 }
{
    if let Some(class) = class {
        count(classes, code(class));
    }
}

/// One more of the class of a move, if any.
fn count_classed(classes: &mut [u64; 256], classed: Option<Classed>)
    requires { (k : ℕ) → slice_index classes.old k + 1 < 2 ^ 64 }
    ensures counts { (cs : List (Option Class)) (c : Class) → of_class classes.new cs c
        ≡ of_class classes.old (class_list classed ++ cs) c }
    ensures few { (k : ℕ) → slice_index classes.new k ≤ slice_index classes.old k + 1 }
{
    if let Some(classed) = classed {
        count_class(classes, classed.class);
    }
}

/// One more of the kind, where the move begins a line.
#[tactic(auto, using(crate::proofs::Summed::summed))]
fn count_kind(kinds: &mut [u64; 256], m: &Move)
    requires { (k : ℕ) → slice_index kinds.old k + 1 < 2 ^ 64 }
    ensures counts { (ms : List Move) (k : ℕ) → of_kind kinds.new ms k ≡ of_kind kinds.old (m.now
        ∷ ms) k }
    ensures few { (k : ℕ) → slice_index kinds.new k ≤ slice_index kinds.old k + 1 }
{
    if let Move::At(_, kind) = *m {
        count(kinds, kind_code(kind));
    }
}

/// A row for each of some classes that there is one of.
fn put_class_rows(all: &[Class], classes: &[u64; 256], text: &mut Vec<u8>) -> Result<(), NoMemory>
    ensures { OnOk result (text.new.items
        ≡ text.old.items ++ flat_map (class_sum_row (code_count classes.now)) all.now) }
{
    for class in all {
        let letter = code(*class);
        put_row(&[letter], classes[letter as usize], text)?;
    }
    Ok(())
}

fn put_classes(classes: &[u64; 256], text: &mut Vec<u8>) -> Result<(), NoMemory>
    ensures { OnOk result (text.new.items
        ≡ text.old.items ++ class_sums (code_count classes.now)) }
{
    put_class_rows(&CLASSES, classes, text)
}

/// A row for each of some kinds that there is one of.
fn put_kind_rows(all: &[KindName], kinds: &[u64; 256], text: &mut Vec<u8>) -> Result<(), NoMemory>
    ensures { OnOk result (text.new.items
        ≡ text.old.items ++ flat_map (kind_row (slice_index kinds.now)) all.now) }
{
    for kind in all {
        put_row(
            kind_name_text(*kind),
            kinds[kind_letter(*kind) as usize],
            text,
        )?;
    }
    Ok(())
}

fn put_kinds(kinds: &[u64; 256], text: &mut Vec<u8>) -> Result<(), NoMemory>
    ensures { OnOk result (text.new.items
        ≡ text.old.items ++ kind_sums (slice_index kinds.now)) }
{
    put_kind_rows(&KINDS, kinds, text)
}

/// No number of anything.
fn zeros() -> [u64; 256]
    ensures { result ≡ replicate 256 0 }
{
    [0; 256]
}

/// How many moves are of each class, and how many lines of each kind.
#[derive(Drop)]
pub(crate) struct SumTeller {
    classifier: Classifier,
    /// By the letter of a class.
    classes: [u64; 256],
    /// By the letter of a kind.
    kinds: [u64; 256],
    /// No number is greater than this.
    counted: u64,
    ghost few: { AreBounded classes kinds counted },
}

impl SumTeller {
    ghost use Rattle.mm_show.specs.SumRest.{sum_rest};

    /// Nothing was counted.
    pub(crate) fn new(alloc: Global) -> SumTeller
        ensures sums { (moves : List Move) → sum_rest result true unstarted moves
            ≡ sums_text moves }
        ensures none { result.counted ≡ 0 }
    {
        let classifier = Classifier::new(alloc);
        let classes = zeros();
        let kinds = zeros();
        SumTeller {
            classifier,
            classes,
            kinds,
            counted: 0,
        }
    }

    /// Writes the sums.
    fn put_sums(&self, _life: &Life, text: &mut Vec<u8>) -> Result<(), NoMemory>
        ensures { OnOk result (text.new.items ≡ text.old.items
            ++ sum_rest self.now true (life_of _life.now) []) }
    {
        let mut classes = self.classes;
        count_classed(&mut classes, self.classifier.last());
        put_classes(&classes, text)?;
        put_kinds(&self.kinds, text)?;
        Ok(())
    }
}

impl Teller for SumTeller {
    ghost use Rattle.mm_show.specs.SumRest.{sum_rest};

    ghost rest = { sum_rest };

    ghost why = { why_not };

    ghost counted = { λ t. t.counted };

    fn take(&mut self, life: &Life, m: &Move, _text: &mut Vec<u8>) -> Result<(), NoMemory> {
        let before = self.classifier.next(life, m)?;
        count_classed(&mut self.classes, before);
        count_kind(&mut self.kinds, m);
        self.counted += 1;
        Ok(())
    }

    fn finish(&mut self, whole: bool, life: &Life, text: &mut Vec<u8>) -> Result<(), NoMemory> {
        if whole {
            self.put_sums(life, text)
        } else {
            Ok(())
        }
    }

    fn tell_why(&self, life: &Life, m: &Move, text: &mut Vec<u8>) -> Result<(), NoMemory> {
        put_why(life, m, text)
    }
}
