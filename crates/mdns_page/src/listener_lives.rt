//! The lives of records that each of several listeners heard, and all together.

ghost use Rattle.std.specs.Prelude.{◌≡◌, ◌≢◌, ◌<◌, ℕ, suc, [], List, IfErr, IfOk, IfSome, IsTrue, None, OnOk, length, map, min};
ghost use Rattle.std.specs.List.{range_with_len};
ghost use Rattle.mdns_capture.specs.Savefile.{header_fault};
ghost use Rattle.mdns_message.specs.declared.hearing.Hearing.{Hearing};
ghost use Rattle.mdns_lives.specs.{Chronicle.{Chronicles}, MessageChronicle.{RecordsAll}};
ghost use Rattle.mdns_browse.specs.Services.{AreEach};
ghost use Rattle.mdns_survey.specs.Listen.{HasListenFault, IsNoReadFault, ListensTo};
ghost use Rattle.mdns_page.specs.ByListener.{AddsAt, AddsFile, AddsTo, HearsFiles, HoldsLives, all_of};

use crate::by_listener::listener_at;
use mdns_capture::Source;
use mdns_listeners::Groups;
use mdns_lives::{Chronicle, Lives, MessageChronicle};
use mdns_message::Want;
use mdns_survey::filter::{Filter, Filtered};
use mdns_survey::hearer::lives_of_chronicle;
use mdns_survey::listen::{ListenFault, listen_with};
use mdns_survey::reading::Reading;
use std::alloc::Global;

/// The lives of records that each listener heard, and all together. With several listeners it takes longer than the lives of all,
/// and about twice the memory.
#[derive(Drop)]
pub struct ListenerLives {
    pub(crate) captures: Vec<Lives>,
    // Those of all, unless there is only one listener.
    joined: Lives,
    // The listener of each file.
    by_file: Vec<usize>,
    // The place of the file that is read next.
    place: usize,
}

impl ListenerLives {
    // Makes the lives of listeners that heard nothing.
    pub(crate) fn new(alloc: Global, groups: &Groups) -> Result<ListenerLives, Want>
        ensures { IfOk result (HoldsLives groups.now []) }
    {
        Ok(ListenerLives {
            captures: unheard(alloc, groups.names().len())?,
            joined: no_lives(alloc)?,
            by_file: Vec::from_slice(alloc, groups.by_file())?,
            place: 0,
        })
    }

    // Returns the lives of all records.
    pub(crate) fn all(&self) -> &Lives
        ensures { result.now ≡ all_of self.now }
    {
        match self.captures.as_slice() {
            [capture] => capture,
            _ => &self.joined,
        }
    }

    // Listens to one more file. After an error nothing is promised of the lives.
    pub(crate) fn collect_from<R: Source + Drop>(
        &mut self,
        alloc: Global,
        reader: R,
        filter: Filter,
    ) -> Result<Reading, ListenFault>
        ensures heard { IfOk result (ListensTo (HearsFiles filter) (R.remaining reader) self.old self.new) }
        ensures fault { IfErr result (λ fault. HasListenFault fault (R.remaining reader)) }
        ensures sound { IfOk result (λ _. IfSome (R.remaining reader) (λ bytes. header_fault bytes ≡ None)) }
        ensures steady { IsTrue (R.steady reader) → IfErr result IsNoReadFault }
    {
        let mut file = Filtered {
            hearer: MessageChronicle::new(alloc),
            filter,
        };
        let reading = match listen_with(alloc, reader, &mut file) {
            Ok(reading) => reading,
            // The clauses name this very fault, and `?` would convert it.
            Err(fault) => return Err(fault),
        };
        match self.add(file.hearer) {
            Ok(()) => Ok(reading),
            Err(Want) => Err(ListenFault::Memory),
        }
    }

    // Adds what one more file heard. After `Want` nothing is promised of the lives.
    pub(crate) fn add(&mut self, file: MessageChronicle) -> Result<(), Want>
        ensures { OnOk result ((heard : List Hearing) → RecordsAll file.contents file.memory heard → AddsFile heard self.old self.new) }
    {
        let lives = lives_of_chronicle(file)?;
        join_unless_one(&mut self.joined, self.captures.len(), &lives)?;
        let listener = listener_at(self.by_file.as_slice(), self.place);
        add_at(&mut self.captures, listener, lives)?;
        self.place = next_place(self.place, self.by_file.len());
        Ok(())
    }
}

// Makes the lives of so many listeners that heard nothing.
fn unheard(alloc: Global, count: usize) -> Result<Vec<Lives>, Want>
    ensures { IfOk result (λ captures. AreEach Chronicles captures.items (map (λ listener. []) (range_with_len 0 count))) }
{
    let mut captures = Vec::with_capacity(alloc, count)?;
    for listener in 0..count {
        captures.push(no_lives(alloc)?)?;
    }
    Ok(captures)
}

fn no_lives(alloc: Global) -> Result<Lives, Want>
    ensures { IfOk result (λ lives. Chronicles lives []) }
{
    Chronicle::new(alloc).finish()
}

// Joins the lives of a file to those of all, unless there is only one listener.
fn join_unless_one(joined: &mut Lives, count: usize, file: &Lives) -> Result<(), Want>
    ensures { OnOk result (count ≢ 1 → AddsTo joined.old file.now joined.new) }
{
    if count == 1 {
        return Ok(());
    }
    joined.join_with(file)
}

// Adds the lives of a file to those of its listener.
fn add_at(captures: &mut Vec<Lives>, listener: usize, file: Lives) -> Result<(), Want>
    ensures { OnOk result (AddsAt listener captures.old.items file captures.new.items) }
{
    if listener >= captures.len() {
        return Ok(());
    }
    add_to(&mut captures[listener], file)
}

// The lives of a listener's first file are taken as they are.
fn add_to(lives: &mut Lives, file: Lives) -> Result<(), Want>
    ensures { OnOk result (AddsTo lives.old file lives.new) }
{
    match lives.newest() {
        Some(_) => lives.join_with(&file),
        None => {
            *lives = file;
            Ok(())
        }
    }
}

// Returns the place of the next file, or how many files there are.
fn next_place(place: usize, count: usize) -> usize
    ensures { result ≡ min (suc place) count }
{
    if place < count { place + 1 } else { count }
}
