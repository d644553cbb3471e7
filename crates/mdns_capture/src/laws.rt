//! Laws of captures and frames, over their definitions alone. Each function does nothing: its contract is the law.

ghost use Rattle.std.specs.Prelude.{◌≡◌, ◌≢◌, ◌⊎◌, ◌<◌, List, ◌∷◌, ◌++◌, map, ℕ, None, Some, slice_index};
ghost use Rattle.std.specs.Option.{option_map};
ghost use Rattle.mdns_capture.specs.declared.{frame.Skip.{Skip}, savefile.Ending.{Ending}, savefile.Ending.TheVariants.{Whole, Many}};
ghost use Rattle.mdns_capture.specs.Savefile.{PacketAt, CaptureReads, header_fault};
ghost use Rattle.mdns_capture.specs.Cut.{offset_after, moved_to, ending_at, content_of, part_before, part_from};
ghost use Rattle.mdns_capture.specs.{Frame.{FrameCarries, cause_of, skip_of, skip_of_cause}, Limits.{file_header_size}};

/// The bytes of a file have at most one reading, a list of packets and an ending. They have one
/// exactly where the file header has no fault.
#[tactic(auto, using(crate::proofs::OneReadingLemmas::some_reading))]
pub fn one_reading()
    ensures unique { (bytes : List ℕ) (packets others : List PacketAt) (ending other : Ending)
        → CaptureReads bytes packets ending → CaptureReads bytes others other
        → (packets ≡ others) × (ending ≡ other) }
    ensures sound { (bytes : List ℕ) (packets : List PacketAt) (ending : Ending)
        → CaptureReads bytes packets ending → header_fault bytes ≡ None }
    ensures exists { (bytes : List ℕ) → ((offset : ℕ) → slice_index bytes offset < 256)
        → header_fault bytes ≡ None
        → (packets : List PacketAt) × ((ending : Ending) × CaptureReads bytes packets ending) }
{}

/// A frame carries at most one payload.
pub fn one_payload()
    ensures { (frame first second : List ℕ)
        → FrameCarries frame first → FrameCarries frame second → first ≡ second }
{}

/// A frame carries a payload or fails a check; never both.
pub fn payload_or_skip()
    ensures either { (frame : List ℕ)
        → ((payload : List ℕ) × FrameCarries frame payload) ⊎ ((skip : Skip) × (skip_of frame ≡ Some skip)) }
    ensures not_both { (frame payload : List ℕ) (skip : Skip)
        → FrameCarries frame payload → skip_of frame ≡ Some skip → ⊥ }
{}

/// A frame is skipped by the kind of the check that it fails first.
#[tactic(auto, unfolding(crate::specs::Frame::skip_of))]
pub fn skip_is_of_the_cause()
    ensures { (frame : List ℕ) → skip_of frame ≡ option_map skip_of_cause (cause_of frame) }
{}

/// A capture that is cut in two where a packet header begins, the file header repeated, has the same
/// packets between its parts. The first part has those before the cut and is whole. The second has
/// those after it, at offsets counted anew but with the same moments and frames, and ends as the
/// capture does. Not so where the capture ends as `Many`: its second part may go on.
#[tactic(auto, using(crate::proofs::CutLemmas::for_cut_at_a_packet_header))]
pub fn cut_at_a_packet_header()
    // The offset after some packets is that of the next packet's header.
    ensures offset { (bytes : List ℕ) (front back : List PacketAt) (packet : PacketAt) (ending : Ending)
        → CaptureReads bytes (front ++ packet ∷ back) ending → packet.at ≡ offset_after file_header_size front }
    ensures first { (bytes : List ℕ) (front back : List PacketAt) (ending : Ending)
        → CaptureReads bytes (front ++ back) ending → ((at : ℕ) → ending ≢ Many at)
        → CaptureReads (part_before (offset_after file_header_size front) bytes) front Whole }
    ensures second { (bytes : List ℕ) (front back : List PacketAt) (ending : Ending)
        → CaptureReads bytes (front ++ back) ending → ((at : ℕ) → ending ≢ Many at)
        → CaptureReads (part_from (offset_after file_header_size front) bytes)
        (moved_to file_header_size back) (ending_at (offset_after file_header_size back) ending) }
    ensures same { (offset : ℕ) (packets : List PacketAt)
        → map content_of (moved_to offset packets) ≡ map content_of packets }
{}
