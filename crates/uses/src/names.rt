//! Names as text.

ghost use Rattle.std.specs.Prelude.{◌≡◌, IfOk, string_bytes};
ghost use Rattle.dns_name.specs.Name.{name_text};

use dns_name::Name;
use memory::Want;
use std::alloc::Global;

/// Returns a name as text.
pub fn name_as_text(alloc: Global, name: &Name) -> Result<String, Want>
    ensures { IfOk result (λ text. string_bytes text ≡ name_text name.now) }
{
    let mut text = String::new(alloc);
    name.push_text(&mut text)?;
    Ok(text)
}
