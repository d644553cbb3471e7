//! Laws of names, over their definitions alone. Each function does nothing: its contract is the law.

ghost use Rattle.std.specs.Prelude.{◌≡◌, ◌⊎◌, ℕ, List};
ghost use Rattle.dns_name.specs.{declared.fault.NameReadFault.{NameReadFault}, FirstFault.{NameFails}};
ghost use Rattle.dns_name.specs.{Name.{AreLabels, IsWire, labels_of, wire_of}, NameAt.{NameReads, NameStands}};

/// The labels of a wire form are those that it spells, each of 1 to 63 bytes, and no others.
#[tactic(auto, using(crate::proofs::FormLemmas::labels_of_form, crate::proofs::FormLemmas::labels_of_wire_of))]
pub fn wire_labels()
    ensures spelled { (bytes : List ℕ) → IsWire bytes
        → AreLabels (labels_of bytes) × (wire_of (labels_of bytes) ≡ bytes) }
    ensures read { (labels : List (List ℕ)) → AreLabels labels
        → labels_of (wire_of labels) ≡ labels }
{}

/// At one offset and under one bound a message has at most one name, and one offset after it.
#[tactic(auto, using(crate::proofs::NameLemmas::one_name_stands))]
pub fn one_name()
    ensures { (message : List ℕ) (offset bound : ℕ) (name other : List ℕ) (next more : ℕ)
        → NameStands message offset bound name next → NameStands message offset bound other more
        → (name ≡ other) × (next ≡ more) }
{}

/// At each offset of a message there is one name or one first fault, never both.
#[tactic(auto, using(crate::proofs::NameFaultLemmas::for_one_name_outcome, crate::proofs::NameOutcomeLemmas::name_outcome))]
pub fn one_name_outcome()
    ensures outcome { (message : List ℕ) (offset : ℕ)
        → ((name : List ℕ) × (next : ℕ) × NameReads message offset name next)
        ⊎ ((fault : NameReadFault) × NameFails message offset fault) }
    ensures not_both { (message : List ℕ) (offset : ℕ) (name : List ℕ) (next : ℕ) (fault : NameReadFault)
        → NameReads message offset name next → NameFails message offset fault → ⊥ }
    ensures one_fault { (message : List ℕ) (offset : ℕ) (fault other : NameReadFault)
        → NameFails message offset fault → NameFails message offset other → fault ≡ other }
{}
