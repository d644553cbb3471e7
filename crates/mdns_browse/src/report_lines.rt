//! Reports as lines of words.

ghost use Rattle.std.specs.Prelude.{◌≡◌, ◌++◌, ◌∷◌, ◌≤◌, [], codes, length, OnOk};
ghost use Rattle.std.specs.{Fmt.{decimal}, String.{string_bytes}};
ghost use Rattle.mdns_capture.specs.Text.{moment_text};
ghost use Rattle.mdns_cache.specs.LentRecords.{live_record_lent};
ghost use Rattle.mdns_browse.specs.{LifeText.{life_words}, RecordText.{record_line}};

use crate::data_words::{Word, WordSink, push_text_words, push_words};
use crate::format::push_resource;
use crate::life_text::end_word;
use crate::sheet::{InstancePointer, Sheet};
use crate::short_text::ShortText;
use mdns_cache::LiveRecord;
use mdns_capture::Moment;
use mdns_lives::Life;
use mdns_message::{BorrowedBody, Bytes, Name, Want};

impl WordSink for String {
    ghost use Rattle.std.specs.Prelude.{◌∷◌};
    ghost use Rattle.mdns_browse.specs.Sheet.{writes};
    ghost use Rattle.mdns_browse.specs.laws.Sheet.{writes-laws};

    ghost takes_words = { writes (λ word. 32 ∷ word) };

    fn word(&mut self, word: Word<'_>) -> Result<(), Want> {
        self.push(' ')?;
        word.push_text(self)
    }

    ghost word_laws = { writes-laws (λ word. 32 ∷ word) };
}

// Writes before a text the TTL of a hearing, its moment, and the end that it gives.
fn prepend_hearing(text: &mut ShortText, ttl: u32, heard: Moment, until: u64)
    requires { length text.old ≤ 9 }
    ensures written { text.new ≡ codes " ttl " ++ decimal ttl ++ codes " heard " ++ moment_text heard.nanos
        ++ codes " until " ++ moment_text until ++ text.old }
    ensures len { length text.new ≤ 90 }
{
    text.prepend_moment(until);
    text.prepend(" until ");
    text.prepend_moment(heard.nanos());
    text.prepend(" heard ");
    text.prepend_decimal(ttl as u64);
    text.prepend(" ttl ");
}

/// Appends the line of a live record.
#[tactic(auto, unfolding(crate::specs::RecordText::record_line))]
pub(crate) fn push_record_line(to: &mut String, row: &LiveRecord<'_>) -> Result<(), Want>
    ensures { OnOk result (string_bytes to.new ≡ string_bytes to.old ++ record_line (live_record_lent row.now)) }
{
    push_resource(to, &row.last.resource.borrowed())?;
    push_live(to, row)
}

fn push_live(to: &mut String, row: &LiveRecord<'_>) -> Result<(), Want>
    ensures { OnOk result (string_bytes to.new ≡ string_bytes to.old
        ++ (codes " ttl " ++ decimal row.now.last.ttl ++ codes " heard " ++ moment_text row.now.last.moment.nanos
        ++ codes " until " ++ moment_text row.now.end ++ 10 ∷ [])) }
{
    let mut text = ShortText::new();
    text.prepend("\n");
    prepend_hearing(&mut text, row.last.ttl, row.last.moment, row.end);
    text.append_to(to)
}

/// Appends when a life began, its last hearing, and when and how it ends.
#[tactic(auto, unfolding(crate::specs::LifeText::life_words))]
pub(crate) fn push_life(to: &mut String, end_of_captures: Moment, life: &Life) -> Result<(), Want>
    ensures { OnOk result (string_bytes to.new ≡ string_bytes to.old ++ life_words end_of_captures.nanos life.now) }
{
    let mut text = ShortText::new();
    text.prepend(end_word(end_of_captures, life));
    text.prepend(" ");
    prepend_hearing(&mut text, life.last.ttl, life.last.moment, life.until);
    text.prepend_moment(life.from.nanos());
    text.prepend(" from ");
    text.append_to(to)
}

impl Sheet for String {
    ghost use Rattle.mdns_browse.specs.Sheet.{writes};
    ghost use Rattle.mdns_browse.specs.LinePieces.{piece_lines};
    ghost use Rattle.mdns_browse.specs.laws.Sheet.{writes-laws};

    ghost takes = { writes piece_lines };

    fn instance_begin(&mut self, _given: &InstancePointer<'_>, name: &Name) -> Result<(), Want> {
        name.push_text(self)?;
        Ok(self.push('\n')?)
    }

    fn server_begin(
        &mut self,
        priority: u16,
        weight: u16,
        port: u16,
        target: &Name,
    ) -> Result<(), Want> {
        self.push_str("  server ")?;
        target.push_text(self)?;
        write!(self, " {port} priority {priority} weight {weight}\n")?;
        Ok(())
    }

    fn server_address(&mut self, address: &BorrowedBody<'_>) -> Result<(), Want> {
        self.push_str("    address")?;
        push_words(self, address)?;
        Ok(self.push('\n')?)
    }

    fn server_end(&mut self) -> Result<(), Want> {
        Ok(())
    }

    fn servers_end(&mut self, none: bool) -> Result<(), Want> {
        if none {
            self.push_str("  unresolved\n")?;
        }
        Ok(())
    }

    fn instance_text(&mut self, text: &Bytes) -> Result<(), Want> {
        self.push_str("  text")?;
        push_text_words(self, text.as_slice())?;
        Ok(self.push('\n')?)
    }

    fn instance_end(&mut self) -> Result<(), Want> {
        Ok(())
    }

    ghost laws = { writes-laws piece_lines };
}
