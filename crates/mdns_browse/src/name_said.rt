//! Names as people write them: dots within labels look like those between them. After `Want` the contents of `to` are not
//! specified.

ghost use Rattle.std.specs.{Prelude.{◌≡◌, ◌∷◌, ◌++◌, IfOk, OnOk}, List.{flat_map}, String.{string_bytes}};
ghost use Rattle.dns_name.specs.Name.{IsForm, labels_of};
ghost use Rattle.people_text.specs.Shown.{dotted, shown};
ghost use Rattle.mdns_browse.specs.NameSaid.{after_front, before_type, from_type, front, is_of_type};

use dns_name::name::split_label;
use mdns_message::Want;
use people_text::shown::push_shown;

/// Appends the labels of a form that stand before a type, the first one in any case; returns the form after them. The root
/// is written as `.`.
#[tactic(auto, using(crate::proofs::SaidLemmas::for_push_front))]
pub(crate) fn push_front<'b>(to: &mut String, form: &'b [u8]) -> Result<&'b [u8], Want>
    requires { IsForm form.now }
    ensures text { OnOk result (string_bytes to.new ≡ string_bytes to.old ++ dotted shown (front (labels_of form.now))) }
    ensures form { IfOk result (λ rest. IsForm rest.now) }
    ensures rest { IfOk result (λ rest. labels_of rest.now ≡ after_front (labels_of form.now)) }
{
    match split_label(form) {
        Some((label, after)) => {
            push_shown(to, label)?;
            push_before_type(to, after)
        }
        None => {
            to.push_str(".")?;
            Ok(form)
        }
    }
}

/// Appends the labels of a form, each after a `.`.
pub(crate) fn push_further(to: &mut String, form: &[u8]) -> Result<(), Want>
    requires { IsForm form.now }
    ensures { OnOk result (string_bytes to.new
        ≡ string_bytes to.old ++ flat_map (λ label. 46 ∷ shown label) (labels_of form.now)) }
{
    let mut rest = form;
    while let Some((label, after)) = split_label(rest) {
        push_label(to, label)?;
        rest = after;
    }
    Ok(())
}

// Appends the labels of a form that stand before a type, each after a `.`; returns the form after them.
fn push_before_type<'b>(to: &mut String, form: &'b [u8]) -> Result<&'b [u8], Want>
    requires { IsForm form.now }
    ensures text { OnOk result (string_bytes to.new
        ≡ string_bytes to.old ++ flat_map (λ label. 46 ∷ shown label) (before_type (labels_of form.now))) }
    ensures form { IfOk result (λ rest. IsForm rest.now) }
    ensures rest { IfOk result (λ rest. labels_of rest.now ≡ from_type (labels_of form.now)) }
{
    let mut rest = form;
    while let Some((label, after)) = split_label(rest) {
        if is_of_type(label) {
            return Ok(rest);
        }
        push_label(to, label)?;
        rest = after;
    }
    Ok(rest)
}

// Checks that a label begins with `_`.
fn is_of_type(label: &[u8]) -> bool
    ensures { result ≡ is_of_type label.now }
{
    match label.first() {
        Some(byte) => *byte == b'_',
        None => false,
    }
}

// Appends a label after a `.`.
fn push_label(to: &mut String, label: &[u8]) -> Result<(), Want>
    ensures { OnOk result (string_bytes to.new ≡ string_bytes to.old ++ 46 ∷ shown label.now) }
{
    to.push_str(".")?;
    push_shown(to, label)
}
