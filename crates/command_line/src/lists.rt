//! The words of options that can be given more than once.

ghost use Rattle.std.specs.Prelude.{◌≡◌, ◌++◌, ◌∷◌, [], IfOk, OnOk, map};
ghost use Rattle.clap.specs.Words.{found_of, rows_of};
ghost use Rattle.command_line.specs.{FinalDot.{asked_words}, Line.{HasLists, HasPrinters, texts_of}};

use crate::files::names_of;
use crate::final_dot::without_final_dot;
use crate::flags::{ABOUT, LISTENER, PRINTER_TYPES, PRINTERS};
use crate::options::is_given;
use clap::ArgMatches;
use mdns_browse::about::Subject;
use mdns_message::Want;
use mdns_survey::request::Subjects;
use std::alloc::Global;

/// The words of each such option, in the order of its uses; none of one that a subcommand doesn't have.
#[derive(Drop)]
pub struct Lists {
    /// The words of `--about`, each with the same without its final dot behind it, and with `--printers` the types of printers, as
    /// what is asked about.
    pub about: Subjects,
    /// The words of `--listener`: with which the names of one listener's files begin.
    pub listeners: Vec<String>,
}

/// Copies of the words that are given.
#[tactic(auto, using(crate::proofs::OptionLemmas::for_lists_of))]
pub(crate) fn lists_of(alloc: Global, given: &ArgMatches<'_>) -> Result<Lists, Want>
    ensures { IfOk result (HasLists (rows_of (found_of given.now))) }
{
    let about = given.get_strs(ABOUT.name).unwrap_or(&[]);
    let listeners = given.get_strs(LISTENER.name).unwrap_or(&[]);
    Ok(Lists {
        about: subjects_of(alloc, about, printers_of(given))?,
        listeners: names_of(alloc, listeners)?,
    })
}

// Returns the types of printers, where they are asked for, and else no words.
fn printers_of(given: &ArgMatches<'_>) -> &'static [&'static str]
    ensures { HasPrinters (rows_of (found_of given.now)) (map (λ word. word.now) result.now) }
{
    if is_given(PRINTERS.name, given) {
        PRINTER_TYPES
    } else {
        &[]
    }
}

// Copies of words and of more words, as what is asked about. Behind a word is the same without its final dot.
fn subjects_of(alloc: Global, words: &[&str], more: &[&str]) -> Result<Subjects, Want>
    ensures { IfOk result (λ about.
        texts_of about ≡ asked_words (map (λ word. word.now) words.now) ++ asked_words (map (λ word. word.now) more.now)) }
{
    let mut about = Vec::new(alloc);
    push_subjects(alloc, &mut about, words)?;
    push_subjects(alloc, &mut about, more)?;
    Ok(Subjects::new(about))
}

// Appends copies of words, as what is asked about. Behind a word is the same without its final dot.
fn push_subjects(alloc: Global, about: &mut Vec<Subject>, words: &[&str]) -> Result<(), Want>
    ensures { OnOk result (texts_of about.new.items ≡ texts_of about.old.items ++ asked_words (map (λ word. word.now) words.now)) }
{
    for word in words {
        push_subject(alloc, about, word)?;
        if let Some(front) = without_final_dot(word) {
            push_subject(alloc, about, front)?;
        }
    }
    Ok(())
}

// Appends a copy of a word, as what is asked about.
fn push_subject(alloc: Global, about: &mut Vec<Subject>, word: &str) -> Result<(), Want>
    ensures { OnOk result (texts_of about.new.items ≡ texts_of about.old.items ++ word.now ∷ []) }
{
    about.push(Subject::new(String::from_str(alloc, word)?))?;
    Ok(())
}
