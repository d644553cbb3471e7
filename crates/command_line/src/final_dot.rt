//! The final dot of a name that is asked about.

ghost use Rattle.std.specs.Prelude.{◌≡◌, option_map};
ghost use Rattle.command_line.specs.FinalDot.{escapes_next, without_final_dot};

/// Returns a word without its final dot. `None` where it has none: that of `\.` is escaped, and that of `.` is all of it.
///
/// A name that ends in a dot is absolute (RFC 1035, section 5.1), as all names of Multicast DNS are; outputs write them without it.
#[tactic(auto, using(crate::proofs::FinalDotLemmas::for_without_final_dot))]
pub(crate) fn without_final_dot(word: &str) -> Option<&str>
    ensures { option_map (λ front. front.now) result ≡ without_final_dot word.now }
{
    let front = word.strip_suffix(".")?;
    if front.is_empty() || escapes_next(front.as_bytes()) {
        return None;
    }
    Some(front)
}

// Checks that a text escapes what follows it: a backslash ends it that no other escapes.
fn escapes_next(text: &[u8]) -> bool
    ensures { result ≡ escapes_next text.now }
{
    text.iter()
        .fold(false, |escapes, byte| !escapes && *byte == b'\\')
}
