//! Reports as JSON (RFC 8259): one object a line.

ghost use Rattle.std.specs.{Prelude.{◌≡◌, ◌++◌, ◌∷◌, [], codes, take, true, false, OnOk}, String.{string_bytes}};
ghost use Rattle.dns_name.specs.Name.{name_text};
ghost use Rattle.mdns_message.specs.Borrowed.{resource_lent};
ghost use Rattle.mdns_cache.specs.LentRecords.{live_record_lent};
ghost use Rattle.people_text.specs.Shown.{name_shown};
ghost use Rattle.mdns_browse.specs.Json.{array_begin, comma_unless, hearing_members, json_string, parted, record_json, resource_members};
ghost use Rattle.mdns_browse.specs.{Given.{given_lent}, Json.{text_member, type_json}, JsonPieces.{instance_members, server_members}};
ghost use Rattle.mdns_browse.specs.{LifeText.{life_rest, resource_json}, RecordShown.{shown_instance}, RecordText.{word_text}};

use crate::data_words::{Word, WordSink, push_text_words, push_words};
use crate::json::{
    json_bool, push_json_name, push_json_string, push_number_member, push_text_member,
};
use crate::life_text::end_word;
use crate::record_shown::{push_shown_instance, push_shown_record};
use crate::sheet::{InstancePointer, Sheet};
use mdns_cache::LiveRecord;
use mdns_capture::Moment;
use mdns_lives::Life;
use mdns_message::{BorrowedBody, BorrowedResource, Bytes, Name, Resource, Want};
use people_text::shown_names::push_shown_name;
use std::alloc::Global;

/// Objects, one a line, the last of which may not be ended.
#[derive(Drop)]
pub(crate) struct ReportText {
    pub(crate) text: String,
    // Room for a word or a text for people before its quotes and backslashes are escaped.
    scratch: String,
    // Whether the array that the text ends in is still empty.
    pub(crate) first: bool,
}

impl ReportText {
    /// Makes a sheet without objects.
    pub(crate) fn new(alloc: Global) -> ReportText
        ensures { string_bytes result.text ≡ [] }
    {
        ReportText {
            text: String::new(alloc),
            scratch: String::new(alloc),
            first: true,
        }
    }

    // Appends a word as a string.
    fn quote(&mut self, word: Word<'_>) -> Result<(), Want>
        ensures text { OnOk result (string_bytes self.new.text ≡ string_bytes self.old.text ++ json_string (word_text word.entry)) }
        ensures first { self.new.first ≡ self.old.first }
    {
        self.scratch.clear();
        word.push_text(&mut self.scratch)?;
        push_json_string(&mut self.text, self.scratch.as_str())
    }

    // Appends a member whose value is a word, after a comma unless it is the first.
    fn member(&mut self, first: bool, name: &str, word: Word<'_>) -> Result<(), Want>
        ensures text { OnOk result (string_bytes self.new.text
            ≡ string_bytes self.old.text ++ (comma_unless first ++ text_member name.now (word_text word.entry))) }
        ensures first { self.new.first ≡ self.old.first }
    {
        self.scratch.clear();
        word.push_text(&mut self.scratch)?;
        push_text_member(&mut self.text, first, name, self.scratch.as_str())
    }

    /// Appends a member whose value is a name, after a comma unless it is the first.
    pub(crate) fn name_member(&mut self, first: bool, name: &str, value: &Name) -> Result<(), Want>
        ensures text { OnOk result (string_bytes self.new.text
            ≡ string_bytes self.old.text ++ (comma_unless first ++ text_member name.now (name_text value.now))) }
        ensures first { self.new.first ≡ self.old.first }
    {
        self.member(first, name, Word::Name(&value.borrowed()))
    }

    /// Appends the name of a member after others and the beginning of an array, its value.
    pub(crate) fn array_begin(&mut self, name: &str) -> Result<(), Want>
        ensures text { OnOk result (string_bytes self.new.text ≡ string_bytes self.old.text ++ array_begin name.now) }
        ensures first { OnOk result (self.new.first ≡ true) }
    {
        push_json_name(&mut self.text, false, name)?;
        self.text.push('[')?;
        self.first = true;
        Ok(())
    }

    /// Appends a comma before a value of an array, unless it is the first.
    pub(crate) fn comma(&mut self) -> Result<(), Want>
        ensures text { OnOk result (string_bytes self.new.text ≡ string_bytes self.old.text ++ comma_unless self.old.first) }
        ensures first { OnOk result (self.new.first ≡ false) }
    {
        if !self.first {
            self.text.push(',')?;
        }
        self.first = false;
        Ok(())
    }

    // Appends the text for people in `scratch` as a member.
    fn shown(&mut self) -> Result<(), Want>
        ensures text { OnOk result (string_bytes self.new.text
            ≡ string_bytes self.old.text ++ 44 ∷ text_member (codes "shown") (string_bytes self.old.scratch)) }
        ensures first { self.new.first ≡ self.old.first }
    {
        push_text_member(&mut self.text, false, "shown", self.scratch.as_str())
    }

    /// Appends the name of an instance for people as a member.
    pub(crate) fn shown_instance(&mut self, name: &Name) -> Result<(), Want>
        ensures text { OnOk result (string_bytes self.new.text
            ≡ string_bytes self.old.text ++ 44 ∷ text_member (codes "shown") (shown_instance name.now)) }
        ensures first { self.new.first ≡ self.old.first }
    {
        self.scratch.clear();
        push_shown_instance(&mut self.scratch, &name.borrowed())?;
        self.shown()
    }

    /// Appends a name for people as a member.
    pub(crate) fn shown_name(&mut self, name: &Name) -> Result<(), Want>
        ensures text { OnOk result (string_bytes self.new.text
            ≡ string_bytes self.old.text ++ 44 ∷ text_member (codes "shown") (name_shown name.now)) }
        ensures first { self.new.first ≡ self.old.first }
    {
        self.scratch.clear();
        push_shown_name(&mut self.scratch, &name.borrowed())?;
        self.shown()
    }

    // Appends the owner, the type and the words of the data of a record as members.
    #[tactic(auto, unfolding(crate::specs::Json::parted))]
    fn exact_members(&mut self, first: bool, resource: &BorrowedResource<'_>) -> Result<(), Want>
        ensures { OnOk result (string_bytes self.new.text
            ≡ string_bytes self.old.text ++ parted first (take 3 (resource_members (resource_lent resource.now)))) }
    {
        self.member(first, "owner", Word::Name(&resource.owner))?;
        push_text_member(
            &mut self.text,
            false,
            "type",
            resource.body.record_type().name(),
        )?;
        self.array_begin("data")?;
        push_words(self, &resource.body)?;
        Ok(self.text.push(']')?)
    }

    // Appends the members that say what a record is.
    fn members(&mut self, first: bool, resource: &BorrowedResource<'_>) -> Result<(), Want>
        ensures { OnOk result (string_bytes self.new.text
            ≡ string_bytes self.old.text ++ parted first (resource_members (resource_lent resource.now))) }
    {
        self.exact_members(first, resource)?;
        self.scratch.clear();
        push_shown_record(&mut self.scratch, resource)?;
        self.shown()
    }

    /// Begins an object with the members that say what a record is.
    pub(crate) fn resource(&mut self, resource: &Resource) -> Result<(), Want>
        ensures { OnOk result (string_bytes self.new.text ≡ string_bytes self.old.text ++ resource_json resource.now) }
    {
        self.text.push('{')?;
        self.members(true, &resource.borrowed())
    }

    // Appends the TTL of a hearing, its moment, and the end that it gives as members.
    #[tactic(auto, unfolding(crate::specs::Json::parted))]
    fn hearing(&mut self, ttl: u32, heard: Moment, until: u64) -> Result<(), Want>
        ensures { OnOk result (string_bytes self.new.text
            ≡ string_bytes self.old.text ++ parted false (hearing_members ttl heard.nanos until)) }
    {
        push_number_member(&mut self.text, false, "ttl", ttl as u64)?;
        self.member(false, "heard", Word::Moment(heard.nanos()))?;
        self.member(false, "until", Word::Moment(until))
    }

    /// Appends the object of a live record.
    #[tactic(auto, using(std::proofs::lemmas::List::append_assoc, crate::proofs::ObjectLemmas::object_by_members), unfolding(crate::specs::Json::record_json))]
    pub(crate) fn record(&mut self, row: &LiveRecord<'_>) -> Result<(), Want>
        ensures { OnOk result (string_bytes self.new.text ≡ string_bytes self.old.text ++ record_json (live_record_lent row.now)) }
    {
        self.resource(row.last.resource)?;
        self.hearing(row.last.ttl, row.last.moment, row.end)?;
        Ok(self.text.push_str("}\n")?)
    }

    /// Appends the object of a service type.
    #[tactic(auto, unfolding(crate::specs::Json::type_json, crate::specs::Json::parted))]
    pub(crate) fn service_type(&mut self, name: &Name) -> Result<(), Want>
        ensures { OnOk result (string_bytes self.new.text ≡ string_bytes self.old.text ++ type_json name.now) }
    {
        self.text.push('{')?;
        self.name_member(true, "type", name)?;
        self.shown_name(name)?;
        Ok(self.text.push_str("}\n")?)
    }

    /// Appends when a life began, its last hearing, and when and how it ends as members, and ends the line.
    #[tactic(auto, unfolding(crate::specs::Json::parted))]
    pub(crate) fn life(&mut self, end_of_captures: Moment, life: &Life) -> Result<(), Want>
        ensures { OnOk result (string_bytes self.new.text ≡ string_bytes self.old.text ++ life_rest end_of_captures.nanos life.now) }
    {
        self.member(false, "from", Word::Moment(life.from.nanos()))?;
        self.hearing(life.last.ttl, life.last.moment, life.until)?;
        push_text_member(
            &mut self.text,
            false,
            "end",
            end_word(end_of_captures, life),
        )?;
        Ok(self.text.push_str("}\n")?)
    }

    // Begins the object of an instance with the members before its servers.
    #[tactic(auto, unfolding(crate::specs::Json::parted))]
    fn instance_members(&mut self, given: &InstancePointer<'_>, name: &Name) -> Result<(), Want>
        ensures { OnOk result (string_bytes self.new.text
            ≡ string_bytes self.old.text ++ 123 ∷ parted true (instance_members (given_lent given.now) name.now)) }
    {
        self.text.push('{')?;
        self.name_member(true, "instance", name)?;
        self.shown_instance(name)?;
        self.name_member(false, "type", &given.row.last.resource.owner)?;
        push_json_name(&mut self.text, false, "goodbye")?;
        Ok(self.text.push_str(json_bool(given.row.last.ttl == 0))?)
    }

    /// Begins the object of a server with the members before its addresses.
    #[tactic(auto, unfolding(crate::specs::Json::parted))]
    pub(crate) fn server_members(
        &mut self,
        priority: u16,
        weight: u16,
        port: u16,
        target: &Name,
    ) -> Result<(), Want>
        ensures text { OnOk result (string_bytes self.new.text
            ≡ string_bytes self.old.text ++ 123 ∷ parted true (server_members priority weight port target.now)) }
        ensures first { self.new.first ≡ self.old.first }
    {
        self.text.push('{')?;
        self.name_member(true, "target", target)?;
        self.shown_name(target)?;
        push_number_member(&mut self.text, false, "port", port as u64)?;
        push_number_member(&mut self.text, false, "priority", priority as u64)?;
        push_number_member(&mut self.text, false, "weight", weight as u64)
    }
}

#[tactic(auto, unfolding(crate::specs::Json::parted))]
impl WordSink for ReportText {
    ghost use Rattle.mdns_browse.specs.Json.{first_after};
    ghost use Rattle.mdns_browse.specs.JsonPieces.{Grows, strings_json};
    ghost use Rattle.mdns_browse.specs.laws.JsonPieces.{strings-laws};

    ghost takes_words = { Grows strings_json first_after };

    fn word(&mut self, word: Word<'_>) -> Result<(), Want> {
        self.comma()?;
        self.quote(word)
    }

    ghost word_laws = { strings-laws };
}

impl Sheet for ReportText {
    ghost use Rattle.mdns_browse.specs.JsonPieces.{Grows, pieces_json, pieces_next};
    ghost use Rattle.mdns_browse.specs.laws.JsonPieces.{pieces-laws};

    ghost takes = { Grows pieces_json pieces_next };

    fn instance_begin(&mut self, given: &InstancePointer<'_>, name: &Name) -> Result<(), Want> {
        self.instance_members(given, name)?;
        self.array_begin("servers")
    }

    fn server_begin(
        &mut self,
        priority: u16,
        weight: u16,
        port: u16,
        target: &Name,
    ) -> Result<(), Want> {
        self.comma()?;
        self.server_members(priority, weight, port, target)?;
        self.array_begin("addresses")
    }

    fn server_address(&mut self, address: &BorrowedBody<'_>) -> Result<(), Want> {
        push_words(self, address)
    }

    fn server_end(&mut self) -> Result<(), Want> {
        self.text.push_str("]}")?;
        self.first = false;
        Ok(())
    }

    fn servers_end(&mut self, _none: bool) -> Result<(), Want> {
        self.text.push(']')?;
        self.array_begin("texts")
    }

    fn instance_text(&mut self, text: &Bytes) -> Result<(), Want> {
        self.comma()?;
        self.text.push('[')?;
        self.first = true;
        push_text_words(self, text.as_slice())?;
        self.text.push(']')?;
        self.first = false;
        Ok(())
    }

    fn instance_end(&mut self) -> Result<(), Want> {
        Ok(self.text.push_str("]}\n")?)
    }

    ghost laws = { pieces-laws };
}

/// Appends the members that say what a record is: its owner, its type, the words of its data, and the record as people
/// read it, each after a comma. After `Want` the contents of `to` are not specified.
pub fn push_resource_members(
    alloc: Global,
    to: &mut String,
    resource: &BorrowedResource<'_>,
) -> Result<(), Want>
    ensures { OnOk result (string_bytes to.new
        ≡ string_bytes to.old ++ parted false (resource_members (resource_lent resource.now))) }
{
    let mut members = ReportText::new(alloc);
    members.members(false, resource)?;
    Ok(to.push_str(members.text.as_str())?)
}
