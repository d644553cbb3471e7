//! Instances as rows of a page.

ghost use Rattle.std.specs.{Prelude.{◌≡◌, OnOk}, String.{string_bytes}};
ghost use Rattle.mdns_page.specs.{Html.{isolated}, LiveSheet.{Adds, type_begin}};

use crate::axis::Axis;
use crate::group::push_group_begin;
use crate::html::push_isolated;
use crate::live_words::{push_address, push_given, push_server, push_text, push_unresolved_if};
use mdns_browse::push_shown_instance;
use mdns_browse::sheet::{InstancePointer, Sheet};
use mdns_message::{BorrowedBody, Bytes, Name, Want};
use people_text::shown_names::push_shown_name;

/// The text of a page, to which a row is appended for each instance.
#[derive(Drop)]
pub(crate) struct LiveSheet {
    pub(crate) text: String,
    axis: Axis,
    // Whether the next address is the first of its server.
    first: bool,
    // Room for text of the network before it is isolated.
    scratch: String,
}

impl LiveSheet {
    /// Makes a sheet that goes on with a text.
    pub(crate) fn new(text: String, axis: Axis) -> LiveSheet
        ensures text { string_bytes result.text ≡ string_bytes text }
        ensures axis { result.axis ≡ axis }
    {
        let scratch = String::new(*text.allocator());
        LiveSheet {
            text,
            axis,
            first: true,
            scratch,
        }
    }

    /// Appends what the group of a type begins with, up to its first row.
    pub(crate) fn begin_type(&mut self, opened: bool, owner: &Name) -> Result<(), Want>
        ensures { OnOk result (Adds self.old (type_begin isolated opened owner.now) self.new) }
    {
        self.scratch.clear();
        push_shown_name(&mut self.scratch, &owner.borrowed())?;
        push_group_begin(&mut self.text, opened)?;
        push_isolated(&mut self.text, self.scratch.as_str())?;
        self.text.push_str("<small>server, addresses</small>")?;
        self.text.push_str("<small>")?;
        self.text.push_str("text")?;
        Ok(self.text.push_str("</small></summary><ul>\n")?)
    }
}

impl Sheet for LiveSheet {
    ghost use Rattle.mdns_page.specs.LiveSheet.{Grows};
    ghost use Rattle.mdns_page.specs.laws.LiveSheet.{grows-laws};

    ghost takes = { Grows };

    fn instance_begin(&mut self, given: &InstancePointer<'_>, name: &Name) -> Result<(), Want> {
        self.text.push_str("<li><div>")?;
        self.scratch.clear();
        push_shown_instance(&mut self.scratch, &name.borrowed())?;
        push_isolated(&mut self.text, self.scratch.as_str())?;
        push_given(&mut self.text, self.axis, given)?;
        self.text.push_str("</div>")?;
        Ok(self.text.push_str("<div>")?)
    }

    fn server_begin(
        &mut self,
        priority: u16,
        weight: u16,
        port: u16,
        target: &Name,
    ) -> Result<(), Want> {
        self.first = true;
        self.scratch.clear();
        push_shown_name(&mut self.scratch, &target.borrowed())?;
        push_server(
            &mut self.text,
            priority,
            weight,
            port,
            self.scratch.as_str(),
        )
    }

    fn server_address(&mut self, address: &BorrowedBody<'_>) -> Result<(), Want> {
        push_address(&mut self.text, self.first, address)?;
        self.first = false;
        Ok(())
    }

    fn server_end(&mut self) -> Result<(), Want> {
        Ok(())
    }

    fn servers_end(&mut self, none: bool) -> Result<(), Want> {
        push_unresolved_if(&mut self.text, none)?;
        self.text.push_str("</div>")?;
        Ok(self.text.push_str("<div>")?)
    }

    fn instance_text(&mut self, text: &Bytes) -> Result<(), Want> {
        push_text(&mut self.text, &mut self.scratch, text.as_slice())
    }

    fn instance_end(&mut self) -> Result<(), Want> {
        Ok(self.text.push_str("</div></li>\n")?)
    }

    ghost laws = { grows-laws };
}
