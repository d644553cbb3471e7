//! Records and their lives as comma-separated values (RFC 4180). After `Want` the contents of `text` are not specified.

ghost use Rattle.std.specs.Prelude.{◌≡◌, ◌++◌, ℕ, List, OnOk};
ghost use Rattle.std.specs.{List.{flat_map}, String.{string_bytes}};
ghost use Rattle.mdns_message.specs.Borrowed.{resource_lent};
ghost use Rattle.people_text.specs.Shown.{name_shown};
ghost use Rattle.mdns_browse.specs.{Csv.{joined}, LifeText.{life_csv}, RecordShown.{shown_words}, RecordText.{spaced}};

use crate::csv::{CsvField, push_csv_line};
use crate::life_text::end_word;
use crate::record_shown::push_shown_words;
use mdns_capture::Moment;
use mdns_lives::Life;
use mdns_message::{BorrowedResource, Resource, Want};
use people_text::shown_names::push_shown_name;
use std::alloc::Global;

/// The texts of a record.
#[derive(Drop)]
pub struct ResourceTexts {
    /// Its owner.
    pub owner: String,
    /// The words of its data, with one space between them.
    pub words: String,
}

impl ResourceTexts {
    /// Makes empty texts.
    pub fn new(alloc: Global) -> ResourceTexts {
        ResourceTexts {
            owner: String::new(alloc),
            words: String::new(alloc),
        }
    }

    /// Takes the texts of a record. After `Want` they are not specified.
    pub fn show(&mut self, resource: &BorrowedResource<'_>) -> Result<(), Want>
        ensures owner { OnOk result (string_bytes self.new.owner ≡ name_shown (resource_lent resource.now).owner) }
        ensures words { OnOk result (string_bytes self.new.words ≡ joined (shown_words (resource_lent resource.now).body)) }
    {
        self.owner.clear();
        push_shown_name(&mut self.owner, &resource.owner)?;
        self.words.clear();
        push_shown_words(&mut self.words, " ", &resource.body)?;
        drop_first_space(&mut self.words);
        Ok(())
    }
}

/// Drops the space before the first of words that stand each after a space: one is left between two.
pub(crate) fn drop_first_space(words: &mut String)
    ensures { (texts : List (List ℕ)) → string_bytes words.old ≡ spaced texts → string_bytes words.new ≡ joined texts }
{
    if !words.is_empty() {
        words.remove(0);
    }
}

/// Appends the line of each life of a record.
pub(crate) fn push_csv_lives(
    text: &mut String,
    end_of_captures: Moment,
    resource: &Resource,
    lives: &[Life],
) -> Result<(), Want>
    ensures { OnOk result (string_bytes text.new
        ≡ string_bytes text.old ++ flat_map (life_csv end_of_captures.nanos resource.now) lives.now) }
{
    let mut texts = ResourceTexts::new(*text.allocator());
    texts.show(&resource.borrowed())?;
    for life in lives {
        push_life(text, &texts, resource, end_of_captures, life)?;
    }
    Ok(())
}

#[tactic(auto, unfolding(crate::specs::LifeText::life_csv))]
fn push_life(
    text: &mut String,
    texts: &ResourceTexts,
    resource: &Resource,
    end_of_captures: Moment,
    life: &Life,
) -> Result<(), Want>
    requires owner { string_bytes texts.now.owner ≡ name_shown resource.now.owner }
    requires words { string_bytes texts.now.words ≡ joined (shown_words resource.now.body) }
    ensures { OnOk result (string_bytes text.new
        ≡ string_bytes text.old ++ life_csv end_of_captures.nanos resource.now life.now) }
{
    push_csv_line(
        text,
        &[
            CsvField::Text(texts.owner.as_str()),
            CsvField::Text(resource.body.record_type().name()),
            CsvField::Text(texts.words.as_str()),
            CsvField::Moment(life.from.nanos()),
            CsvField::Number(life.last.ttl as u64),
            CsvField::Moment(life.last.moment.nanos()),
            CsvField::Moment(life.until),
            CsvField::Text(end_word(end_of_captures, life)),
        ],
    )
}
