//! Which listener each file belongs to.

ghost use Rattle.std.specs.Prelude.{◌≡◌, ◌<◌, ◌≤◌, ℕ, ◌∷◌, ◌++◌, [], IfOk, List, OnOk, length, map, string_bytes};
ghost use Rattle.std.specs.List.{All, list_any};
ghost use Rattle.mdns_listeners.specs.Groups.{HasBegun, base_name, fits, grouped, position_of, prefix_of, unfit_prefix};

use memory::Want;
use std::alloc::Global;
use std::marker::Model;

/// The listeners of files. A listener is a file, or all files whose names, without folders, begin with a PREFIX.
#[derive(Drop)]
pub struct Groups {
    names: Vec<String>,
    by_file: Vec<usize>,
}

impl Model for Groups {
    ghost use Rattle.std.specs.Prelude.{◌<◌, length, map, string_bytes};
    ghost use Rattle.std.specs.List.{All};
    ghost use Rattle.mdns_listeners.specs.Groups.{Grouped};

    ghost Value = { Grouped };

    ghost view = { λ a. record { names = map string_bytes a.names.items; by_file = a.by_file.items } };

    ghost invariant = { λ a. All (λ listener. listener < length a.names.items) a.by_file.items };
}

impl Groups {
    /// Groups the files. A file belongs to the first prefix that its name, without folders, begins with; without one it is a
    /// listener by itself, also if another file has the same name. Listeners stand in the order of their first files.
    #[tactic(auto, using(crate::proofs::GroupLemmas::positions_push, crate::proofs::GroupLemmas::nothing_begun))]
    pub fn new(alloc: Global, files: &[String], prefixes: &[String]) -> Result<Groups, Want>
        ensures groups { IfOk result (λ groups. groups ≡ grouped (map string_bytes prefixes.now) (map string_bytes files.now)) }
        ensures each { IfOk result (λ groups. length groups.by_file ≡ length files.now) }
    {
        let mut names = Vec::new(alloc);
        let mut by_file = Vec::new(alloc);
        let mut begun = vec![in alloc; None; prefixes.len()]?;
        for file in files {
            let listener = listener_of(prefixes, begun.as_mut_slice(), &mut names, file.as_str())?;
            by_file.push(listener)?;
        }
        Ok(Groups { names, by_file })
    }

    /// Returns the listeners' names: the prefix, or the file that no prefix fits.
    pub fn names(&self) -> &[String]
        ensures { map string_bytes result.now ≡ self.now.names }
    {
        self.names.as_slice()
    }

    /// Returns for each file the position of its listener among the names.
    pub fn by_file(&self) -> &[usize]
        ensures by_file { result.now ≡ self.now.by_file }
        ensures within { All (λ listener. listener < length self.now.names) result.now }
    {
        self.by_file.as_slice()
    }
}

/// Returns the place of the first prefix that no file's name, without folders, begins with.
pub fn unfit_prefix(prefixes: &[String], files: &[String]) -> Option<usize>
    ensures { result ≡ unfit_prefix (map string_bytes prefixes.now) (map string_bytes files.now) }
{
    prefixes
        .iter()
        .position(|prefix| !fits_one(prefix.as_bytes(), files))
}

// Checks that the prefix fits one of the files.
fn fits_one(prefix: &[u8], files: &[String]) -> bool
    ensures { result ≡ list_any (λ file. fits prefix.now (string_bytes file)) files.now }
{
    files
        .iter()
        .any(|file| base_name(file.as_bytes()).starts_with(prefix))
}

// Returns the position of the listener that the file belongs to. `begun` has that of each prefix whose listener is among the
// names.
#[tactic(auto, using(crate::proofs::GroupLemmas::begun_alone, crate::proofs::GroupLemmas::begun_again, crate::proofs::GroupLemmas::begun_first))]
fn listener_of(
    prefixes: &[String],
    begun: &mut [Option<usize>],
    names: &mut Vec<String>,
    file: &str,
) -> Result<usize, Want>
    requires { length begun.now ≡ length prefixes.now }
    ensures listener { IfOk result (λ at. (earlier : List (List ℕ))
        → HasBegun (map string_bytes prefixes.now) earlier (map string_bytes names.old.items) begun.old
        → (at ≡ position_of (map string_bytes prefixes.now) earlier file.now)
        × HasBegun (map string_bytes prefixes.now) (earlier ++ file.now ∷ []) (map string_bytes names.new.items) begun.new
        × (at < length names.new.items)) }
    ensures grows { OnOk result (length names.old.items ≤ length names.new.items) }
{
    let next = names.len();
    let Some(at) = prefix_of(prefixes, file) else {
        names.push(String::from_str(*names.allocator(), file)?)?;
        return Ok(next);
    };
    if let Some(listener) = begun[at] {
        return Ok(listener);
    }
    names.push(String::from_str(*names.allocator(), prefixes[at].as_str())?)?;
    begun[at] = Some(next);
    Ok(next)
}

// Returns the place of the first prefix that fits the file.
fn prefix_of(prefixes: &[String], file: &str) -> Option<usize>
    ensures { result ≡ prefix_of (map string_bytes prefixes.now) file.now }
{
    let base = base_name(file.as_bytes());
    prefixes
        .iter()
        .position(|prefix| base.starts_with(prefix.as_bytes()))
}

// Returns a file's name without folders.
#[tactic(auto, using(crate::proofs::GroupLemmas::base_or_whole))]
fn base_name(file: &[u8]) -> &[u8]
    ensures { result.now ≡ base_name file.now }
{
    let mut base = file;
    let mut rest = file;
    while let Some((byte, others)) = rest.split_first() {
        if *byte == b'/' {
            base = others;
        }
        rest = others;
    }
    base
}
