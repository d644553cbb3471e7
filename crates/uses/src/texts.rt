//! Texts for people.

ghost use Rattle.std.specs.Prelude.{◌≡◌, ◌++◌, ◌∷◌, IfOk, string_bytes};
ghost use Rattle.people_text.specs.{MomentText.{seconds_text}, Shown.{name_shown}};

use dns_name::Name;
use memory::Want;
use people_text::moment_text::push_seconds;
use people_text::shown_names::push_shown_name;
use std::alloc::Global;

/// Returns when a name was heard, in nanoseconds since 1970, and the name as people read it.
pub fn heard_name(alloc: Global, nanos: u64, name: &Name) -> Result<String, Want>
    ensures { IfOk result (λ text. string_bytes text ≡ seconds_text nanos ++ 32 ∷ name_shown name.now) }
{
    let mut text = String::new(alloc);
    push_seconds(&mut text, nanos)?;
    text.push(' ')?;
    push_shown_name(&mut text, &name.borrowed())?;
    Ok(text)
}
