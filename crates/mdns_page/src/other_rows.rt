//! Rows of records that give no instance, which are addresses of hosts, and names that aren't one label and the type: when
//! there are any, and what they name.

ghost use Rattle.std.specs.{Prelude.{◌≡◌, ◌++◌, codes, is_some, OnOk}, String.{string_bytes}};
ghost use Rattle.mdns_message.specs.Parts.{address_of};
ghost use Rattle.mdns_browse.specs.RecordShown.{shown_address};
ghost use Rattle.mdns_page.specs.{Html.{isolated}, Timeline.{is_large}};
ghost use Rattle.people_text.specs.Shown.{name_shown};

use crate::html::push_isolated;
use mdns_browse::push_shown_address;
use mdns_message::{Address, Body, BorrowedName, Name, Want};
use people_text::shown_names::push_shown_name;

/// With more instances, other records have no rows, and rows have no lanes.
const LARGE_INSTANCES: usize = 1000;

/// Checks that data is an address.
pub(crate) fn has_address(body: &Body) -> bool
    ensures { result ≡ is_some (address_of body.now) }
{
    body.address().is_some()
}

/// Checks that there are so many instances that other records have no rows, and no row has lanes.
pub(crate) fn is_large(instances: usize) -> bool
    ensures { result ≡ is_large instances }
{
    instances > LARGE_INSTANCES
}

/// Appends a host, by way of `scratch`, and an address of it.
pub(crate) fn push_host_name(
    to: &mut String,
    scratch: &mut String,
    owner: &Name,
    address: Address,
) -> Result<(), Want>
    ensures { OnOk result (string_bytes to.new ≡ string_bytes to.old
        ++ (isolated (name_shown owner.now) ++ codes " <code>" ++ shown_address address ++ codes "</code>")) }
{
    push_whole_name(to, scratch, &owner.borrowed())?;
    to.push_str(" <code>")?;
    push_shown_address(to, address)?;
    to.push_str("</code>")?;
    Ok(())
}

/// Appends a whole name as people read it, by way of `scratch`.
pub(crate) fn push_whole_name(
    to: &mut String,
    scratch: &mut String,
    name: &BorrowedName<'_>,
) -> Result<(), Want>
    ensures { OnOk result (string_bytes to.new ≡ string_bytes to.old ++ isolated (name_shown name.now)) }
{
    scratch.clear();
    push_shown_name(scratch, name)?;
    push_isolated(to, scratch.as_str())
}
