ghost use Rattle.std.specs.Prelude.{◌≡◌, ◌++◌, IfOk, OnOk, true, List};
ghost use Rattle.mm_types.specs.{Move};
ghost use Rattle.mm_move_rules.specs.{unstarted};

use crate::data::PageTeller;
use crate::rows::{put_answers_file, put_script_file};
use crate::words::put_classes;
use mm_log_walk::{Lines, put_line};
use mm_types::NoMemory;
use std::alloc::Global;

/// The fixed texts of a page. Between each and the next stands something of the log.
#[derive(Clone, Copy)]
pub struct PageTexts<'a> {
    /// Up to the words of the classes.
    pub up_to_classes: &'a [u8],
    /// From there up to the classified moves.
    pub up_to_moves: &'a [u8],
    /// From there up to the lines of the script.
    pub up_to_script: &'a [u8],
    /// From there up to its answers.
    pub up_to_answers: &'a [u8],
    /// From there up to the name of its file.
    pub up_to_name: &'a [u8],
    /// From there up to the packed observations.
    pub up_to_observations: &'a [u8],
    /// From there to the end.
    pub up_to_end: &'a [u8],
}

/// What a page has beside the lines of its files.
#[derive(Clone, Copy)]
pub(crate) struct Named<'a> {
    /// The name of the script's file.
    pub(crate) name: &'a [u8],
    /// The packed observations; empty where none are named.
    pub(crate) observations: &'a [u8],
}

ghost use Rattle.mm_show.specs.Showing.{front_text, name_row, script_text, behind_text, whole_page_text};
ghost use Rattle.mm_show.specs.Texts.{page_read};
ghost use Rattle.mm_show.specs.PageRest.{page_rest};

/// What stands in front of a page's moves.
#[tactic(auto, using(mm_text::proofs::DigitCounts::joined))]
fn front_of(alloc: Global, page: &PageTexts<'_>, named: &Named<'_>) -> Result<Vec<u8>, NoMemory>
    ensures { IfOk result (λ v. v.items ≡ front_text (page_read page.now named.now)) }
{
    let mut text = Vec::new(alloc);
    text.extend_from_slice(page.up_to_classes)?;
    put_classes(&mut text)?;
    text.extend_from_slice(page.up_to_moves)?;
    Ok(text)
}

/// Writes the name of a script's file, if there is a script.
fn put_name(script: &Option<Lines>, name: &[u8], text: &mut Vec<u8>) -> Result<(), NoMemory>
    ensures { OnOk result (text.new.items ≡ text.old.items ++ name_row script.now name.now) }
{
    match script {
        Some(_) => put_line(name, text),
        None => Ok(()),
    }
}

/// Writes the lines of a script, its answers, and its name.
#[tactic(auto, using(mm_text::proofs::DigitCounts::joined))]
fn put_script(
    page: &PageTexts<'_>,
    named: &Named<'_>,
    script: &Option<Lines>,
    answers: &Option<Lines>,
    text: &mut Vec<u8>,
) -> Result<(), NoMemory>
    ensures { OnOk result (text.new.items ≡ text.old.items
        ++ script_text (page_read page.now named.now) script.now answers.now) }
{
    text.extend_from_slice(page.up_to_script)?;
    put_script_file(script, text)?;
    text.extend_from_slice(page.up_to_answers)?;
    put_answers_file(answers, text)?;
    text.extend_from_slice(page.up_to_name)?;
    put_name(script, named.name, text)
}

/// What stands behind a page's moves.
#[tactic(auto, using(mm_text::proofs::DigitCounts::joined))]
fn behind_of(
    alloc: Global,
    page: &PageTexts<'_>,
    named: &Named<'_>,
    script: &Option<Lines>,
    answers: &Option<Lines>,
) -> Result<Vec<u8>, NoMemory>
    ensures { IfOk result (λ v. v.items
        ≡ behind_text (page_read page.now named.now) script.now answers.now) }
{
    let mut text = Vec::new(alloc);
    put_script(page, named, script, answers, &mut text)?;
    text.extend_from_slice(page.up_to_observations)?;
    text.extend_from_slice(named.observations)?;
    text.extend_from_slice(page.up_to_end)?;
    Ok(text)
}

/// Makes the page of a log that is told.
pub(crate) fn page_teller(
    alloc: Global,
    page: &PageTexts<'_>,
    named: &Named<'_>,
    script: &Option<Lines>,
    answers: &Option<Lines>,
) -> Result<PageTeller, NoMemory>
    ensures { IfOk result (λ t. (moves : List Move) → page_rest t true unstarted moves
        ≡ whole_page_text (page_read page.now named.now) script.now answers.now moves) }
{
    let front = front_of(alloc, page, named)?;
    let behind = behind_of(alloc, page, named, script, answers)?;
    Ok(PageTeller::new(alloc, front, behind))
}
