ghost use Rattle.std.specs.Prelude.{◌≡◌, ◌+◌, ◌-◌, ◌^◌, ◌<◌, ◌≤◌, true, false, length, OnOk, IfOk};
ghost use Rattle.mm_text.specs.{is_unspaced};
ghost use Rattle.mm_script.specs.Shape.{read, Number, AnyNumber, PidNumber, TidNumber, ByteWord, NameWord, NameOrDash, DeviceWord, DirectionWord};
ghost use Rattle.mm_script.specs.Place.{fault_at};
ghost use Rattle.mm_script.specs.Keywords.{keyword_of};
ghost use Rattle.mm_script.specs.Reading.{word_as, ended_words, whole_line, Gives};
ghost use Rattle.mm_script.specs.Cursor.{TakesNextWord, TakesWord};
ghost use Rattle.mm_script.specs.Numbers.{numbers_for, PutsNumbers};

use crate::keywords::Keyword;
use crate::{LineFault, values};
use mm_text::{Words, bytes, name, number};
use mm_types::{ByteBuf, Device, Direction, Name, Pid, Tid};
use std::marker::Model;

/// More words than any line has.
const MOST_WORDS: u32 = 64;

/// The most numbers that stand in a line.
pub const MOST_NUMBERS: usize = 6;

/// The least number that may stand at a place, and the greatest.
#[derive(Clone, Copy)]
pub struct Range(pub u32, pub u32);

/// The words of a line that are left. Each call takes the next word, and answers its value, or the
/// fault at it.
#[derive(Drop)]
pub struct Fields<'a> {
    line: &'a [u8],
    words: Words<'a>,
    number: u32,
    last: u32,
}

impl<'a> Model for Fields<'a> {
    ghost use Rattle.mm_script.specs.Reading.{Rest};
    ghost use Rattle.mm_script.specs.Cursor.{IsCursor, rest_of};

    ghost Value = { Rest };

    ghost view = { λ f. rest_of f.line.now f.words f.number f.last };

    ghost invariant = { λ f. IsCursor f.line.now f.words f.number f.last };
}

impl<'a> Fields<'a> {
    /// All words of a line of fewer than 2^32 - 1 bytes.
    pub fn new(line: &'a [u8]) -> Fields<'a>
        requires { length line.now + 1 < 2 ^ 32 }
        ensures { result ≡ whole_line line.now }
    {
        Fields {
            line,
            words: Words::new(line),
            number: 1,
            last: 0,
        }
    }

    /// The next word; the fault stands after the line's end where no word is left. Either way one
    /// word more is counted.
    #[inline(always)]
    fn next(&mut self) -> Result<&'a [u8], LineFault>
        requires few { self.old.number < MOST_WORDS }
        ensures word { TakesNextWord self.old result self.new }
        ensures counts { self.new.number ≡ self.old.number + 1 }
    {
        let line = self.line;
        let number = self.number;
        self.number += 1;
        let Some(span) = self.words.next() else {
            return Err(LineFault {
                column: line.len() as u32 + 1,
                word: number,
            });
        };
        self.last = span.from;
        Ok(span.of(line))
    }

    /// The fault at the word that was taken last.
    pub fn fault(&self) -> LineFault
        ensures { result ≡ fault_at self.now.last (self.now.number - 1) }
    {
        LineFault {
            column: self.last + 1,
            word: self.number - 1,
        }
    }

    /// That no word is left; the fault stands at the next one.
    #[inline(always)]
    #[tactic(auto, unfolding(crate::specs::Reading::ended_words))]
    pub fn end(&mut self) -> Result<(), LineFault>
        ensures ended { result ≡ ended_words self.old }
        ensures same { OnOk result (self.new ≡ self.old) }
    {
        match self.words.next() {
            None => Ok(()),
            Some(span) => Err(LineFault {
                column: span.from + 1,
                word: self.number,
            }),
        }
    }

    /// A number from `least` to `most`.
    #[inline(always)]
    #[tactic(auto, using(crate::proofs::Narrowed::narrowed))]
    pub fn number_in(&mut self, least: u32, most: u32) -> Result<u32, LineFault>
        requires few { self.old.number < MOST_WORDS }
        ensures value { Gives result self.new (word_as (read (Number least most)) self.old) }
        ensures counts { self.new.number ≡ self.old.number + 1 }
        ensures range { IfOk result (λ n. (least ≤ n) × (n ≤ most)) }
    {
        let value = self.number()?;
        if least <= value && value <= most {
            Ok(value)
        } else {
            Err(self.fault())
        }
    }

    /// A number below 2^32, by one pass over its word where that tells it.
    #[inline(always)]
    pub fn number(&mut self) -> Result<u32, LineFault>
        requires few { self.old.number < MOST_WORDS }
        ensures value { Gives result self.new (word_as (read AnyNumber) self.old) }
        ensures counts { self.new.number ≡ self.old.number + 1 }
    {
        match self.words.next_number() {
            Some(found) => {
                self.number += 1;
                self.last = found.from;
                Ok(found.value)
            }
            None => self.number_word(),
        }
    }

    /// The same by the next word, which is taken whole.
    #[inline(never)]
    #[tactic(auto, using(crate::proofs::Given::given), unfolding(crate::specs::Shape::read))]
    fn number_word(&mut self) -> Result<u32, LineFault>
        requires few { self.old.number < MOST_WORDS }
        ensures value { Gives result self.new (word_as (read AnyNumber) self.old) }
        ensures counts { self.new.number ≡ self.old.number + 1 }
    {
        let word = self.next()?;
        number(word).ok_or(self.fault())
    }

    /// A number that a byte holds.
    pub fn byte(&mut self) -> Result<u8, LineFault>
        requires few { self.old.number < MOST_WORDS }
        ensures value { Gives result self.new (word_as (read (Number 0 255)) self.old) }
        ensures counts { self.new.number ≡ self.old.number + 1 }
    {
        let value = self.number_in(0, 255)?;
        Ok(value as u8)
    }

    /// As many numbers as there are ranges, each in its own, at the front of `numbers`.
    #[inline(always)]
    pub fn numbers(
        &mut self,
        ranges: &[Range],
        numbers: &mut [u32; MOST_NUMBERS],
    ) -> Result<(), LineFault>
        requires few { length ranges.now ≤ MOST_NUMBERS }
        requires words { self.old.number + length ranges.now ≤ MOST_WORDS }
        ensures value { PutsNumbers result numbers.new self.new (numbers_for ranges.now self.old) }
        ensures counts { OnOk result (self.new.number ≡ self.old.number + length ranges.now) }
    {
        *numbers = [0; MOST_NUMBERS];
        let mut count = 0;
        for range in ranges {
            numbers[count] = self.number_in(range.0, range.1)?;
            count += 1;
        }
        Ok(())
    }

    /// A process's number, 0 to 255.
    #[inline(always)]
    #[tactic(auto, using(crate::proofs::Narrowed::narrowed))]
    pub fn pid(&mut self) -> Result<Pid, LineFault>
        requires few { self.old.number < MOST_WORDS }
        ensures value { Gives result self.new (word_as (read PidNumber) self.old) }
        ensures counts { self.new.number ≡ self.old.number + 1 }
    {
        let value = self.number_in(0, 255)?;
        Ok(Pid(value as u8))
    }

    /// A thread's number, 0 to 255.
    #[tactic(auto, using(crate::proofs::Narrowed::narrowed))]
    pub fn tid(&mut self) -> Result<Tid, LineFault>
        requires few { self.old.number < MOST_WORDS }
        ensures value { Gives result self.new (word_as (read TidNumber) self.old) }
        ensures counts { self.new.number ≡ self.old.number + 1 }
    {
        let value = self.number_in(0, 255)?;
        Ok(Tid(value as u8))
    }

    /// 1 to 64 bytes, as pairs of hexadecimal digits.
    #[inline(always)]
    #[tactic(auto, using(crate::proofs::Given::given))]
    pub fn bytes(&mut self) -> Result<ByteBuf, LineFault>
        requires few { self.old.number < MOST_WORDS }
        ensures value { Gives result self.new (word_as (read ByteWord) self.old) }
        ensures counts { self.new.number ≡ self.old.number + 1 }
    {
        let word = self.next()?;
        bytes(word).ok_or(self.fault())
    }

    /// A name.
    #[tactic(auto, using(crate::proofs::Given::given), unfolding(crate::specs::Shape::read))]
    pub fn name(&mut self) -> Result<Name, LineFault>
        requires few { self.old.number < MOST_WORDS }
        ensures value { Gives result self.new (word_as (read NameWord) self.old) }
        ensures counts { self.new.number ≡ self.old.number + 1 }
    {
        let word = self.next()?;
        name(word).ok_or(self.fault())
    }

    /// A name, or `-` for none.
    #[tactic(auto, using(crate::proofs::Given::given))]
    pub fn name_or_dash(&mut self) -> Result<Option<Name>, LineFault>
        requires few { self.old.number < MOST_WORDS }
        ensures value { Gives result self.new (word_as (read NameOrDash) self.old) }
        ensures counts { self.new.number ≡ self.old.number + 1 }
    {
        let word = self.next()?;
        values::name_or_dash(word).ok_or(self.fault())
    }

    /// `paging` or `file`.
    #[tactic(auto, using(crate::proofs::Given::given))]
    pub fn device(&mut self) -> Result<Device, LineFault>
        requires few { self.old.number < MOST_WORDS }
        ensures value { Gives result self.new (word_as (read DeviceWord) self.old) }
        ensures counts { self.new.number ≡ self.old.number + 1 }
    {
        let word = self.next()?;
        values::device(word).ok_or(self.fault())
    }

    /// `read` or `write`.
    #[tactic(auto, using(crate::proofs::Given::given))]
    pub fn direction(&mut self) -> Result<Direction, LineFault>
        requires few { self.old.number < MOST_WORDS }
        ensures value { Gives result self.new (word_as (read DirectionWord) self.old) }
        ensures counts { self.new.number ≡ self.old.number + 1 }
    {
        let word = self.next()?;
        values::direction(word).ok_or(self.fault())
    }

    /// Takes the next word where it is this one, which has no space in it.
    #[inline(always)]
    fn takes(&mut self, text: &[u8]) -> bool
        requires few { self.old.number < MOST_WORDS }
        requires word { is_unspaced text.now ≡ true }
        ensures taken { result ≡ true → TakesWord self.old text.now self.new }
        ensures left { result ≡ false → self.new ≡ self.old }
    {
        match self.words.next_is(text) {
            Some(from) => {
                self.number += 1;
                self.last = from;
                true
            }
            None => false,
        }
    }

    /// The first word of a line. The commonest two are tested first.
    #[inline(always)]
    #[tactic(auto, using(crate::proofs::Given::keywords))]
    pub fn keyword(&mut self) -> Result<Keyword, LineFault>
        requires few { self.old.number < MOST_WORDS }
        ensures value { Gives result self.new (word_as keyword_of self.old) }
        ensures counts { self.new.number ≡ self.old.number + 1 }
    {
        if self.takes(b"read") {
            return Ok(Keyword::Read);
        }
        if self.takes(b"write") {
            return Ok(Keyword::Write);
        }
        let word = self.next()?;
        Keyword::of(word).ok_or(self.fault())
    }
}
