//! Laws of the definitions: of the last hearing, the flush moments and the ends of a set of hearings, of the contents
//! that stand for it, and of their join. Each function does nothing: its contract is the law.

ghost use Rattle.std.specs.Prelude.{◌≡◌, ◌↔◌, ◌≤◌, ◌<◌, ◌++◌, ◌∷◌, [], ℕ, List, Contains, true};
ghost use Rattle.mdns_message.specs.{declared.hearing.Hearing.{Hearing}, declared.key.Key.{Key}, RecordSet.{RecordSet}};
ghost use Rattle.mdns_join.specs.{declared.latest.Latest.{Latest}, Kept.{has, kept, IsStruckBy}};
ghost use Rattle.join_map.specs.Join.{IsAtMost, IsPartOfJoin};
ghost use Rattle.mdns_cache.specs.declared.plan.Plan.{Plan};
ghost use Rattle.mdns_cache.specs.Live.{IsHeard, IsLast, SameHearings, IsFlushedAt, IsStruck, IsLive, flush_moments, IsEnd};
ghost use Rattle.mdns_cache.specs.{Plan.{hearings_of}, Contents.{Contents, IsContents, StandsFor, contents_of, join_of, no_contents}};

use crate::cache::{Cache, map_laws};

/// `SameHearings` is an equivalence that ignores the order and the repeats of hearings.
#[tactic(auto, using(crate::proofs::StandsPartLemmas::for_order_and_repeats, crate::proofs::LawLemmas::for_order_and_repeats))]
pub fn order_and_repeats()
    ensures itself { (heard : List Hearing) → SameHearings heard heard }
    ensures back { (heard others : List Hearing) → SameHearings heard others → SameHearings others heard }
    ensures onward { (heard others more : List Hearing) → SameHearings heard others → SameHearings others more → SameHearings heard more }
    ensures swapped { (heard others : List Hearing) → SameHearings (heard ++ others) (others ++ heard) }
    ensures repeated { (heard : List Hearing) → SameHearings (heard ++ heard) heard }
    ensures joined { (heard others more rest : List Hearing) → SameHearings heard others → SameHearings more rest
        → SameHearings (heard ++ more) (others ++ rest) }
{}

/// A record that was heard has exactly one last hearing.
pub fn one_last_hearing()
    ensures some { (heard : List Hearing) (key : Key) → IsHeard heard key → (l : Latest) × IsLast heard key l }
    ensures same { (heard : List Hearing) (key : Key) (l m : Latest) → IsLast heard key l → IsLast heard key m → l ≡ m }
{
    map_laws();
}

/// For each set of hearings there are contents that stand for it, and all such contents are equal.
#[tactic(auto, using(crate::proofs::LawLemmas::some_contents, crate::proofs::StandsForLemmas::stands_same))]
pub fn one_contents()
    ensures some { (heard : List Hearing) → (c : Contents) × StandsFor c heard }
    ensures same { (heard others : List Hearing) (c d : Contents) → SameHearings heard others → StandsFor c heard
        → StandsFor d others → c ≡ d }
{
    map_laws();
}

/// Plans of the same hearings have equal contents: caches that replay them are equal.
#[tactic(auto, using(crate::proofs::EqualityLemmas::eq_contents_tells, crate::proofs::StandsForLemmas::stands_same))]
pub fn plans_of_same_hearings()
    ensures contents { (p q : Plan) (c d : Contents) → SameHearings (hearings_of p) (hearings_of q)
        → StandsFor c (hearings_of p) → StandsFor d (hearings_of q) → c ≡ d }
    ensures equal { (p q : Plan) (c d : Contents) → SameHearings (hearings_of p) (hearings_of q)
        → StandsFor c (hearings_of p) → StandsFor d (hearings_of q) → ⟦<Cache as PartialEq>⟧.eq c d ≡ true }
{}

/// The contents that stand for no hearings, for one, and for the hearings of both sides: the join of both sides'
/// contents.
#[tactic(auto, using(crate::proofs::LawLemmas::for_contents_of_union, crate::proofs::StandsForLemmas::for_contents_of_union, crate::proofs::MeaningLemmas::for_contents_of_union))]
pub fn contents_of_union()
    ensures none { StandsFor no_contents [] }
    ensures one { (h : Hearing) → StandsFor (contents_of h) (h ∷ []) }
    ensures both { (heard others : List Hearing) (c d : Contents) → StandsFor c heard → StandsFor d others
        → StandsFor (join_of c d) (heard ++ others) }
{
    map_laws();
}

/// Merging is a join: idempotent, commutative and associative, and the least contents that both sides are at most.
#[tactic(auto, using(crate::proofs::ContentsLemmas::join_of_laws))]
pub fn merging_is_a_join()
    ensures idempotent { (c : Contents) → IsContents c → join_of c c ≡ c }
    ensures commutative { (c d : Contents) → IsContents c → IsContents d → join_of c d ≡ join_of d c }
    ensures associative { (b c d : Contents) → IsContents b → IsContents c → IsContents d
        → join_of (join_of b c) d ≡ join_of b (join_of c d) }
    ensures keeps { (c d : Contents) → IsContents c → IsContents d → IsContents (join_of c d) }
    ensures left { (c d : Contents) → IsContents c → IsContents d → IsAtMost join_of c (join_of c d) }
    ensures right { (c d : Contents) → IsContents c → IsContents d → IsAtMost join_of d (join_of c d) }
    ensures least { (b c d : Contents) → IsContents b → IsContents c → IsContents d → IsAtMost join_of b d
        → IsAtMost join_of c d → IsAtMost join_of (join_of b c) d }
{
    map_laws();
}

/// After a failed allocation the contents lie between the old ones and the join; repeating the call gives that join.
pub fn call_made_again()
    ensures { (old other value : Contents) → IsContents old → IsContents other → IsContents value
        → IsPartOfJoin join_of old other value → join_of value other ≡ join_of old other }
{
    map_laws();
}

/// The flush moments that aren't kept are never needed: as of a moment no earlier than every hearing, the kept flush
/// moments of a set strike a record exactly if some flush of all hearings does.
pub fn no_flush_is_missed()
    ensures moments { (heard : List Hearing) (set : RecordSet) (moment : ℕ)
        → (has (flush_moments heard set) moment ≡ true) ↔ IsFlushedAt heard set moment }
    ensures strikes { (heard : List Hearing) (key : Key) (t now : ℕ)
        → ((h : Hearing) → Contains heard h → h.moment.nanos ≤ now)
        → (IsStruckBy (kept (flush_moments heard key.set)) t now ↔ IsStruck heard now key t) }
{}

/// A record that was heard has exactly one end, which is the same for the same hearings.
pub fn one_end()
    ensures some { (heard : List Hearing) (key : Key) → IsHeard heard key → (end : ℕ) × IsEnd heard key end }
    ensures shared { (heard others : List Hearing) (key : Key) (end : ℕ) → SameHearings heard others
        → IsEnd heard key end → IsEnd others key end }
    ensures same { (heard others : List Hearing) (key : Key) (d e : ℕ) → SameHearings heard others → IsEnd heard key d
        → IsEnd others key e → d ≡ e }
{
    map_laws();
}

/// A record is live exactly until its end.
pub fn live_until_end()
    ensures { (heard : List Hearing) (key : Key) (now end : ℕ) → IsEnd heard key end
        → (((l : Latest) × IsLive heard now key l) ↔ (now < end)) }
{}

/// `==` of caches is equality of their contents.
#[tactic(auto, using(crate::proofs::EqualityLemmas::eq_contents_tells))]
pub fn equal_caches()
    ensures { (c d : Contents) → (⟦<Cache as PartialEq>⟧.eq c d ≡ true) ↔ (c ≡ d) }
{}
