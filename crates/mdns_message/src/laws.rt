//! Laws of resources, keys, messages and the strings of TXT data, over their definitions alone, and with them those of
//! names. Each function does nothing: its contract is the law.

ghost use Rattle.std.specs.Prelude.{◌≡◌, ◌≤◌, ◌↔◌, ◌⊎◌, ◌++◌, List, [], ◌∷◌, ℕ, length, IsTrue};
ghost use Rattle.mdns_capture.specs.declared.moment.Moment.{Moment};
ghost use Rattle.mdns_message.specs.declared.{fault.MessageFault.{MessageFault}, hearing.Hearing.{Hearing}};
ghost use Rattle.mdns_message.specs.{FirstMessageFault.{MessageFails}, Message.{HasHeader, MessageReads}};
ghost use Rattle.mdns_message.specs.Resource.{key_of, set_key_of, set_of, key_cmp, set_key_cmp, resource_cmp, SameRecord, SameSet};
ghost use Rattle.mdns_message.specs.{TextData.{strings_of}, declared.resource.Resource.{Resource as resource}};
ghost use Rattle.mdns_message.specs.{declared.key.Key.{Key as key}, RecordSet.{RecordSet}};

use crate::key::Key;
use crate::resource::Resource;
use crate::set_key::SetKey;
pub use dns_name::laws::{one_name, one_name_outcome, wire_labels};

/// Two keys are equal exactly for the same record, two set keys exactly for the same set.
pub fn keys_tell_records()
    ensures record { (a b : resource)
        → (IsTrue (⟦<Key as PartialEq>⟧.eq (key_of a) (key_of b)) ↔ SameRecord a b) }
    ensures set { (a b : resource)
        → (IsTrue (⟦<SetKey as PartialEq>⟧.eq (set_key_of a) (set_key_of b)) ↔ SameSet a b) }
    ensures record_key { (a b : resource) → (key_of a ≡ key_of b) ↔ SameRecord a b }
    ensures set_key { (a b : resource) → (set_key_of a ≡ set_key_of b) ↔ SameSet a b }
    ensures set_of_key { (a : resource) → set_of (key_of a) ≡ set_key_of a }
{}

/// Keys that compare equal are the same value.
#[tactic(auto, using(crate::specs::laws::Resource::set_keys_same))]
pub fn equal_keys()
    ensures key { (a b : key) → (IsTrue (⟦<Key as PartialEq>⟧.eq a b) ↔ (a ≡ b)) }
    ensures set_key { (a b : RecordSet) → (IsTrue (⟦<SetKey as PartialEq>⟧.eq a b) ↔ (a ≡ b)) }
{}

/// Keys are ordered by the folded owner's bytes, the type number, and the data's bytes.
pub fn key_order()
    ensures key { (a b : key) → ⟦<Key as Ord>⟧.cmp a b ≡ key_cmp a b }
    ensures set_key { (a b : RecordSet) → ⟦<SetKey as Ord>⟧.cmp a b ≡ set_key_cmp a b }
{}

/// Resources are ordered by the owner's bytes, the type number and the data's bytes, all unfolded, and
/// compare equal exactly where they are the same value.
#[tactic(auto, using(crate::proofs::KeyLemmas::resources_same))]
pub fn resource_order()
    ensures order { (a b : resource) → ⟦<Resource as Ord>⟧.cmp a b ≡ resource_cmp a b }
    ensures equal { (a b : resource) → (IsTrue (⟦<Resource as PartialEq>⟧.eq a b) ↔ (a ≡ b)) }
{}

/// For a given moment, each message with a good header has one list of hearings or one fault, never both.
pub fn one_message_outcome()
    ensures outcome { (moment : Moment) (message : List ℕ) → HasHeader message
        → ((heard : List Hearing) × MessageReads moment message heard)
        ⊎ ((fault : MessageFault) × MessageFails message fault) }
    ensures not_both { (moment : Moment) (message : List ℕ) (heard : List Hearing) (fault : MessageFault)
        → MessageReads moment message heard → MessageFails message fault → ⊥ }
    ensures one_list { (moment : Moment) (message : List ℕ) (heard others : List Hearing)
        → MessageReads moment message heard → MessageReads moment message others → heard ≡ others }
    ensures one_fault { (message : List ℕ) (fault other : MessageFault)
        → MessageFails message fault → MessageFails message other → fault ≡ other }
{}

/// TXT data is a list of strings, each after its length octet (RFC 1035, section 3.3.14). The clauses
/// give the strings of all data, by the ways in which data can begin.
#[tactic(auto, using(crate::proofs::TextDataLemmas::strings_of_append, crate::proofs::TextDataLemmas::strings_of_cut))]
pub fn strings_of_text()
    ensures none { strings_of [] ≡ [] }
    ensures whole { (string rest : List ℕ) → strings_of (length string ∷ (string ++ rest)) ≡ string ∷ strings_of rest }
    // A last string that is cut short, or ends with the data.
    ensures cut { (count : ℕ) (string : List ℕ) → length string ≤ count → strings_of (count ∷ string) ≡ string ∷ [] }
{}
