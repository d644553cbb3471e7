//! Names as people read them, in UTF-8.

ghost use Rattle.std.specs.{Prelude.{◌≡◌, true, ◌∷◌, [], ◌++◌, OnOk}, List.{flat_map}, String.{string_bytes}};
ghost use Rattle.dns_name.specs.Name.{IsForm, labels_of};
ghost use Rattle.people_text.specs.Shown.{bytes_shown, name_shown};

use crate::shown::push_bytes;
use dns_name::name::split_label;
use dns_name::{BorrowedName, Want};

/// Appends a name: its labels with `.` between them and no final dot, and the root as `.`. Labels are written as
/// `push_shown` does, and `.` in a label as `\.`.
pub fn push_shown_name(to: &mut String, name: &BorrowedName<'_>) -> Result<(), Want>
    ensures { OnOk result (string_bytes to.new ≡ string_bytes to.old ++ name_shown name.now) }
{
    match split_label(name.wire()) {
        Some((label, after)) => {
            push_bytes(to, label, true)?;
            push_further(to, after)
        }
        None => push_dot(to),
    }
}

// Appends the labels of a form, each after a `.`.
fn push_further(to: &mut String, form: &[u8]) -> Result<(), Want>
    requires { IsForm form.now }
    ensures { OnOk result (string_bytes to.new
        ≡ string_bytes to.old ++ flat_map (λ label. 46 ∷ bytes_shown true label) (labels_of form.now)) }
{
    let mut rest = form;
    while let Some((label, after)) = split_label(rest) {
        push_dot(to)?;
        push_bytes(to, label, true)?;
        rest = after;
    }
    Ok(())
}

// Appends a dot.
fn push_dot(to: &mut String) -> Result<(), Want>
    ensures { OnOk result (string_bytes to.new ≡ string_bytes to.old ++ 46 ∷ []) }
{
    to.push('.')?;
    Ok(())
}
