//! What is asked about in vain: nothing that was heard is about it.

ghost use Rattle.std.specs.Prelude.{◌≡◌, ◌↔◌, ◌++◌, ◌∷◌, codes, IfOk, IsTrue, List, OnOk, option_map, string_bytes};
ghost use Rattle.std.specs.List.{flat_map};
ghost use Rattle.mdns_message.specs.declared.hearing.Hearing.{Hearing};
ghost use Rattle.mdns_cache.specs.Contents.{StandsFor};
ghost use Rattle.mdns_lives.specs.Chronicle.{Chronicles};
ghost use Rattle.mdns_survey.specs.Unmatched.{IsHeardAbout, LeavesUnmatched, subjects_text};

use mdns_browse::about::{Subject, keeps_record};
use mdns_cache::Cache;
use mdns_lives::Lives;
use mdns_message::Want;
use std::alloc::Global;

/// Returns the subjects, with a comma between two, where no record in a cache is about one of them, live or not.
pub(crate) fn unmatched_in_cache(
    alloc: Global,
    about: &[Subject],
    cache: &Cache,
) -> Result<Option<String>, Want>
    ensures { IfOk result (λ unmatched. (heard : List Hearing) → StandsFor cache.now heard
        → LeavesUnmatched about.now heard (option_map string_bytes unmatched)) }
{
    let found = is_in_cache(alloc, about, cache)?;
    unmatched_unless(alloc, about, found)
}

/// Returns the subjects, with a comma between two, where no record among lives is about one of them, live or not.
pub fn unmatched_in_lives(
    alloc: Global,
    about: &[Subject],
    lives: &Lives,
) -> Result<Option<String>, Want>
    ensures { IfOk result (λ unmatched. (heard : List Hearing) → Chronicles lives.now heard
        → LeavesUnmatched about.now heard (option_map string_bytes unmatched)) }
{
    let found = is_in_lives(alloc, about, lives)?;
    unmatched_unless(alloc, about, found)
}

// Checks that a record in a cache is about one of the subjects, or whether there is a record where there are no subjects.
#[tactic(auto, using(crate::proofs::UnmatchedLemmas::for_is_in_cache))]
fn is_in_cache(alloc: Global, about: &[Subject], cache: &Cache) -> Result<bool, Want>
    ensures { IfOk result (λ found. (heard : List Hearing) → StandsFor cache.now heard
        → (IsTrue found ↔ IsHeardAbout about.now heard)) }
{
    let mut scratch = String::new(alloc);
    let mut records = cache.walk();
    while let Some((_, latest)) = records.next() {
        if keeps_record(about, &latest.resource.borrowed(), &mut scratch)? {
            return Ok(true);
        }
    }
    Ok(false)
}

// Checks the same of a record among lives, without finding its lives.
#[tactic(auto, using(crate::proofs::UnmatchedLemmas::for_is_in_lives))]
fn is_in_lives(alloc: Global, about: &[Subject], lives: &Lives) -> Result<bool, Want>
    ensures { IfOk result (λ found. (heard : List Hearing) → Chronicles lives.now heard
        → (IsTrue found ↔ IsHeardAbout about.now heard)) }
{
    let mut scratch = String::new(alloc);
    let mut records = lives.walk();
    while let Some(record) = records.next_record() {
        if keeps_record(about, &record.last().resource.borrowed(), &mut scratch)? {
            return Ok(true);
        }
    }
    Ok(false)
}

// Returns the subjects if there are any, unless one was found.
fn unmatched_unless(alloc: Global, about: &[Subject], found: bool) -> Result<Option<String>, Want>
    ensures { IfOk result (λ unmatched. (heard : List Hearing) → (IsTrue found ↔ IsHeardAbout about.now heard)
        → LeavesUnmatched about.now heard (option_map string_bytes unmatched)) }
{
    let Some((first, others)) = about.split_first() else {
        return Ok(None);
    };
    if found {
        return Ok(None);
    }
    let mut text = String::new(alloc);
    text.push_str(first.text())?;
    push_others(&mut text, others)?;
    Ok(Some(text))
}

// Appends the other subjects, each after a comma.
fn push_others(to: &mut String, others: &[Subject]) -> Result<(), Want>
    ensures { OnOk result (string_bytes to.new
        ≡ string_bytes to.old ++ flat_map (λ subject. codes ", " ++ string_bytes subject.text) others.now) }
{
    for subject in others {
        to.push_str(", ")?;
        to.push_str(subject.text())?;
    }
    Ok(())
}
