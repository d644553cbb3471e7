//! Scalars that a person wouldn't see, or that change how others are seen.

ghost use Rattle.std.specs.Prelude.{◌≡◌};
ghost use Rattle.people_text.specs.Shown.{is_hidden};

/// Controls, bidirectional marks, zero-width and blank scalars, spaces other than U+0020, variation selectors, tags,
/// private use and noncharacters: the first and the last of each range.
static HIDDEN: [(u32, u32); 39] = [
    (0x0000, 0x001F),
    (0x007F, 0x00A0),
    (0x00AD, 0x00AD),
    (0x034F, 0x034F),
    (0x061C, 0x061C),
    (0x115F, 0x1160),
    (0x1680, 0x1680),
    (0x17B4, 0x17B5),
    (0x180B, 0x180F),
    (0x2000, 0x200F),
    (0x2028, 0x202F),
    (0x205F, 0x206F),
    (0x2800, 0x2800),
    (0x3000, 0x3000),
    (0x3164, 0x3164),
    (0xE000, 0xF8FF),
    (0xFDD0, 0xFDEF),
    (0xFE00, 0xFE0F),
    (0xFEFF, 0xFEFF),
    (0xFFA0, 0xFFA0),
    (0xFFF0, 0xFFFB),
    (0xFFFE, 0xFFFF),
    (0x13430, 0x1345F),
    (0x1BCA0, 0x1BCA3),
    (0x1D173, 0x1D17A),
    (0x1FFFE, 0x1FFFF),
    (0x2FFFE, 0x2FFFF),
    (0x3FFFE, 0x3FFFF),
    (0x4FFFE, 0x4FFFF),
    (0x5FFFE, 0x5FFFF),
    (0x6FFFE, 0x6FFFF),
    (0x7FFFE, 0x7FFFF),
    (0x8FFFE, 0x8FFFF),
    (0x9FFFE, 0x9FFFF),
    (0xAFFFE, 0xAFFFF),
    (0xBFFFE, 0xBFFFF),
    (0xCFFFE, 0xCFFFF),
    (0xDFFFE, 0xDFFFF),
    (0xE0000, 0x10FFFF),
];

/// Checks that a scalar is hidden.
#[tactic(auto, using(crate::proofs::ShownLemmas::ascii_shown), unfolding(crate::specs::Shown::is_hidden, crate::specs::Shown::hidden_ranges))]
pub(crate) fn is_hidden(scalar: u32) -> bool
    ensures { result ≡ is_hidden scalar }
{
    if 0x20 <= scalar && scalar < 0x7F {
        return false;
    }
    HIDDEN
        .iter()
        .any(|range| range.0 <= scalar && scalar <= range.1)
}
