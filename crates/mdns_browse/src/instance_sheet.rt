//! The lines of one service instance in readable columns.

ghost use Rattle.std.specs.{Prelude.{◌≡◌, ◌++◌, ◌∷◌, [], codes, OnOk}, String.{string_bytes}};
ghost use Rattle.mdns_browse.specs.Columns.{spaces};

use crate::columns::{push_padded_time_left, push_spaces};
use crate::record_shown::{
    GAP, push_shown_instance, push_shown_priority, push_shown_strings, push_shown_target,
    push_shown_words,
};
use crate::sheet::{InstancePointer, Sheet};
use mdns_capture::Moment;
use mdns_message::{BorrowedBody, Bytes, Name, Want};
use std::alloc::Global;

/// Service instances in columns, as of a moment, with a column of this width for what is left.
#[derive(Drop)]
pub(crate) struct InstanceSheet {
    pub(crate) text: String,
    now: Moment,
    width: usize,
    // Room for the words of a text: a line is written only where it has some.
    words: String,
}

impl InstanceSheet {
    /// Makes an empty sheet.
    pub(crate) fn new(alloc: Global, now: Moment, width: usize) -> InstanceSheet
        ensures text { string_bytes result.text ≡ [] }
        ensures now { result.now ≡ now }
        ensures width { result.width ≡ width }
    {
        InstanceSheet {
            text: String::new(alloc),
            now,
            width,
            words: String::new(alloc),
        }
    }
}

fn push_indent(to: &mut String, width: usize) -> Result<(), Want>
    ensures { OnOk result (string_bytes to.new ≡ string_bytes to.old ++ (spaces width ++ codes "    ")) }
{
    push_spaces(to, width)?;
    to.push_str("    ")?;
    Ok(())
}

fn push_line(to: &mut String, width: usize, words: &str) -> Result<(), Want>
    ensures { OnOk result (string_bytes to.new
        ≡ string_bytes to.old ++ (spaces width ++ codes "    " ++ words.now ++ 10 ∷ [])) }
{
    push_indent(to, width)?;
    to.push_str(words)?;
    to.push('\n')?;
    Ok(())
}

impl Sheet for InstanceSheet {
    ghost use Rattle.mdns_browse.specs.ColumnPieces.{Writes};
    ghost use Rattle.mdns_browse.specs.laws.ColumnPieces.{columns-laws};

    ghost takes = { Writes };

    #[tactic(auto, unfolding(crate::specs::Columns::instance_row))]
    fn instance_begin(&mut self, given: &InstancePointer<'_>, name: &Name) -> Result<(), Want> {
        self.text.push_str("  ")?;
        push_padded_time_left(&mut self.text, self.width, self.now, &given.row)?;
        self.text.push_str("  ")?;
        push_shown_instance(&mut self.text, &name.borrowed())?;
        Ok(self.text.push('\n')?)
    }

    fn server_begin(
        &mut self,
        priority: u16,
        weight: u16,
        port: u16,
        target: &Name,
    ) -> Result<(), Want> {
        push_indent(&mut self.text, self.width)?;
        push_shown_target(&mut self.text, GAP, &target.borrowed(), port)?;
        push_shown_priority(&mut self.text, priority, weight)
    }

    fn server_address(&mut self, address: &BorrowedBody<'_>) -> Result<(), Want> {
        push_shown_words(&mut self.text, GAP, address)
    }

    fn server_end(&mut self) -> Result<(), Want> {
        Ok(self.text.push('\n')?)
    }

    #[tactic(auto, unfolding(crate::specs::Columns::words_line))]
    fn servers_end(&mut self, none: bool) -> Result<(), Want> {
        if none {
            return push_line(&mut self.text, self.width, "  unresolved");
        }
        Ok(())
    }

    #[tactic(auto, using(std::proofs::lemmas::Result::on_ok_weaker, crate::proofs::InstanceColumnLemmas::text_line_some))]
    fn instance_text(&mut self, text: &Bytes) -> Result<(), Want> {
        self.words.clear();
        push_shown_strings(&mut self.words, GAP, text.as_slice())?;
        if self.words.is_empty() {
            return Ok(());
        }
        push_line(&mut self.text, self.width, self.words.as_str())
    }

    fn instance_end(&mut self) -> Result<(), Want> {
        Ok(())
    }

    ghost laws = { columns-laws };
}
