//! The names that a sender goes by: the owners of the A and AAAA records whose data is its address.

ghost use Rattle.std.specs.Prelude.{◌≡◌, ◌↔◌, ◌++◌, ◌∷◌, [], List, length, map, IfOk, IsTrue, OnErr, OnOk};
ghost use Rattle.std.specs.List.Sorted.{IsPermutation, IsSorted, IsStrictlySortedBy};
ghost use Rattle.dns_name.specs.Name.{folded};
ghost use Rattle.mdns_message.specs.{declared.hearing.Hearing.{Hearing}, Borrowed.{body_lent, hearing_lent}};
ghost use Rattle.mdns_listeners.specs.SenderNames.{AddsNames, AreNames, Covers, HoldsNames, IsAtMost, ListsNames, SufficeFor};
ghost use Rattle.mdns_listeners.specs.SenderNames.{address_cmp, address_in, by_name, by_spelling, named, told_in};

use dns_name::BorrowedName;
use dns_name::fold::is_folded;
use join_map::index::{Index, REACH, Slot};
use mdns_capture::SourceAddress;
use mdns_message::{BorrowedBody, BorrowedHearing, MessageReader, Name};
use memory::{ByteList, Want};
use std::alloc::Global;
use std::cmp::Ordering;
use std::marker::Model;

/// An address, and a name that a record gives it.
#[derive(Drop)]
pub(crate) struct SenderAddressName {
    source: SourceAddress,

    /// The name folded: most comparisons are of these bytes.
    folded: ByteList,

    name: Name,
}

/// Collects the names of all senders from hearings.
#[derive(Drop)]
pub struct SenderNameCollector {
    alloc: Global,
    held: Vec<SenderAddressName>,

    // Where each of them is, by the hash of its record.
    places: Index,
}

impl Model for SenderNameCollector {
    ghost use Rattle.std.specs.Prelude.{List};
    ghost use Rattle.mdns_listeners.specs.declared.sender_names.SenderAddressName.{SenderAddressName};

    ghost Value = { List SenderAddressName };

    ghost view = { λ a. a.held.items };
}

/// The names of all senders.
#[derive(Drop)]
pub struct SenderNames {
    // The address of each name, ascending.
    sources: Vec<SourceAddress>,

    // The names of one address ascend by their folded wire forms.
    names: Vec<Name>,
}

impl Model for SenderNames {
    ghost use Rattle.std.specs.Prelude.{◌≡◌, ℕ, List, length};
    ghost use Rattle.mdns_capture.specs.declared.source_address.SourceAddress.{SourceAddress};

    ghost Value = { List SourceAddress × List (List ℕ) };

    ghost view = { λ a. (a.sources.items, a.names.items) };

    ghost invariant = { λ a. length a.sources.items ≡ length a.names.items };
}

impl SenderNameCollector {
    /// Makes a collection of no names. It allocates nothing yet.
    pub fn new(alloc: Global) -> SenderNameCollector
        ensures { HoldsNames result [] }
    {
        SenderNameCollector {
            alloc,
            held: Vec::new(alloc),
            places: Index::new(alloc),
        }
    }

    /// Takes the name of an A or AAAA record; other records are ignored. A name that is known in a spelling no greater
    /// allocates nothing. After `Want` the names are as before.
    #[tactic(auto, using(std::proofs::lemmas::Result::on_ok_weaker, crate::proofs::HeldNameLemmas::adds_untold))]
    pub fn hear(&mut self, hearing: &BorrowedHearing<'_>) -> Result<(), Want>
        ensures ok { OnOk result (AddsNames self.old self.new (told_in (hearing_lent hearing.now ∷ []))) }
        ensures err { OnErr result (self.new ≡ self.old) }
    {
        match address_in(&hearing.heard.body) {
            Some(source) => self.put(source, &hearing.heard.owner, hearing.hashes.record),
            None => Ok(()),
        }
    }

    /// Takes the names of all hearings of a message. After `Want` the names still suffice for those that were taken before.
    pub fn hear_all(&mut self, message: &MessageReader) -> Result<(), Want>
        ensures ok { OnOk result (AddsNames self.old self.new (told_in message.now)) }
        ensures keeps { SufficeFor self.new self.old }
    {
        for hearing in message {
            self.hear(&hearing)?;
        }
        Ok(())
    }

    /// Sorts the names. After `Want` they are lost.
    #[tactic(auto, using(crate::proofs::HeldNameLemmas::for_finish))]
    pub fn finish(self) -> Result<SenderNames, Want>
        ensures { IfOk result (λ names. (heard : List Hearing) → HoldsNames self heard → ListsNames names heard) }
    {
        let SenderNameCollector {
            alloc,
            held,
            places: _,
        } = self;
        split(alloc, distinct(held))
    }

    // Takes a name of an address.
    #[tactic(auto, using(crate::proofs::HeldNameLemmas::for_put))]
    fn put(
        &mut self,
        source: SourceAddress,
        owner: &BorrowedName<'_>,
        hash: u64,
    ) -> Result<(), Want>
        ensures ok { OnOk result (AddsNames self.old self.new (named source owner.now ∷ [])) }
        ensures err { OnErr result (self.new ≡ self.old) }
    {
        if self.knows(&source, owner, hash) {
            return Ok(());
        }
        self.push(source, owner, hash)
    }

    // Checks that a name of an address is held in a spelling no greater. One that is held in greater ones only is added again.
    #[tactic(auto, using(crate::proofs::HeldNameLemmas::at_most_suffices))]
    fn knows(&self, source: &SourceAddress, owner: &BorrowedName<'_>, hash: u64) -> bool
        ensures { IsTrue result → SufficeFor self.now (named source.now owner.now ∷ []) }
    {
        for tried in 0..REACH {
            match self.places.slot(hash, tried) {
                Slot::Free => return false,
                Slot::Other => {}
                Slot::Place(place) => {
                    if let Some(held) = self.held.get(place)
                        && held.is_at_most(source, owner)
                    {
                        return true;
                    }
                }
            }
        }
        false
    }

    // Adds a name of an address.
    fn push(
        &mut self,
        source: SourceAddress,
        owner: &BorrowedName<'_>,
        hash: u64,
    ) -> Result<(), Want>
        ensures ok { OnOk result (self.new ≡ self.old ++ named source owner.now ∷ []) }
        ensures err { OnErr result (self.new ≡ self.old) }
    {
        let new = SenderAddressName::new(self.alloc, source, owner)?;
        let place = self.held.len();
        self.places.note(self.alloc, hash, place)?;
        self.held.push(new)?;
        Ok(())
    }
}

impl SenderAddressName {
    // Copies a name of an address.
    fn new(
        alloc: Global,
        source: SourceAddress,
        owner: &BorrowedName<'_>,
    ) -> Result<SenderAddressName, Want>
        ensures { IfOk result (λ one. one ≡ named source owner.now) }
    {
        let mut folded = ByteList::from_slice(alloc, owner.wire())?;
        folded.make_ascii_lowercase_from(0);
        let name = owner.to_name(alloc)?;
        Ok(SenderAddressName {
            source,
            folded,
            name,
        })
    }

    // Checks that this is the name of that address, in a spelling no greater.
    fn is_at_most(&self, source: &SourceAddress, owner: &BorrowedName<'_>) -> bool
        ensures { IsTrue result → IsAtMost self.now (named source.now owner.now) }
    {
        self.source == *source
            && is_folded(self.folded.as_slice(), owner.wire())
            && self.name.wire().cmp(&owner.wire()).is_le()
    }

    // Compares by address and folded name.
    fn name_order(&self, other: &SenderAddressName) -> Ordering
        ensures { result ≡ by_name self.now other.now }
    {
        let by_address = address_order(&self.source, &other.source);
        if by_address.is_ne() {
            return by_address;
        }
        self.folded.as_slice().cmp(&other.folded.as_slice())
    }

    // Compares by address, folded name and spelling.
    fn spelling_order(&self, other: &SenderAddressName) -> Ordering
        ensures { result ≡ by_spelling self.now other.now }
    {
        let by_name = self.name_order(other);
        if by_name.is_ne() {
            return by_name;
        }
        self.name.wire().cmp(&other.name.wire())
    }
}

// Returns the address that is the data of an A or AAAA record.
fn address_in(body: &BorrowedBody<'_>) -> Option<SourceAddress>
    ensures { result ≡ address_in (body_lent body.now) }
{
    match body {
        BorrowedBody::A(octets) => Some(SourceAddress::V4(*octets)),
        BorrowedBody::Aaaa(octets) => Some(SourceAddress::V6(*octets)),
        _ => None,
    }
}

// Compares two addresses, IPv4 before IPv6.
fn address_order(one: &SourceAddress, other: &SourceAddress) -> Ordering
    ensures { result ≡ address_cmp one.now other.now }
{
    match (one, other) {
        (SourceAddress::V4(one), SourceAddress::V4(other)) => one.as_slice().cmp(&other.as_slice()),
        (SourceAddress::V6(one), SourceAddress::V6(other)) => one.as_slice().cmp(&other.as_slice()),
        (SourceAddress::V4(_), SourceAddress::V6(_)) => Ordering::Less,
        (SourceAddress::V6(_), SourceAddress::V4(_)) => Ordering::Greater,
    }
}

// Sorts names by address, folded name and spelling.
fn sort(names: &mut Vec<SenderAddressName>)
    ensures permutation { IsPermutation names.old.items names.new.items }
    ensures sorted { IsSorted by_spelling names.new.items }
{
    names.sort_unstable_by(|one, other| one.spelling_order(other));
}

// Sorts names, and keeps the least spelling of each.
fn distinct(names: Vec<SenderAddressName>) -> Vec<SenderAddressName>
    ensures ascending { IsStrictlySortedBy by_name result.items }
    ensures covers { Covers result.items names.items }
{
    let mut names = names;
    sort(&mut names);
    names.dedup_by(|next, held| next.name_order(held).is_eq());
    names
}

// Lists the addresses and the names.
fn split(alloc: Global, held: Vec<SenderAddressName>) -> Result<SenderNames, Want>
    ensures { IfOk result (λ names. (names.0 ≡ map (λ one. one.source) held.items) × (names.1 ≡ map (λ one. one.name) held.items)) }
{
    let mut sources = Vec::with_capacity(alloc, held.len())?;
    let mut names = Vec::with_capacity(alloc, held.len())?;
    for one in held {
        sources.push(one.source)?;
        names.push(one.name)?;
    }
    Ok(SenderNames { sources, names })
}

impl SenderNames {
    /// Returns the names that a sender goes by, in the order of their folded wire forms, each in its least spelling.
    pub fn names_of(&self, sender: &SourceAddress) -> &[Name]
        ensures { (heard : List Hearing) → ListsNames self.now heard → AreNames sender.now heard result.now }
    {
        let sources = self.sources.as_slice();
        let first = sources.partition_point(|source| address_order(source, sender).is_lt());
        let after = &sources[first..];
        let count = after.partition_point(|source| address_order(source, sender).is_le());
        let names = self.names.as_slice();
        &names[first..first + count]
    }
}
