// Names by number, in the order in which they were first noted.
#![tactic(auto)]

ghost use Rattle.std.specs.Prelude.{◌≡◌, [], map, length, string_bytes, MatchResult};
ghost use Rattle.std.specs.Option.{option_map};
ghost use Rattle.std.specs.List.{slice_get};
ghost use Rattle.names.specs.Numbered.{names, Noted};
ghost use Rattle.names.specs.Places.{place, Distinct};

use std::alloc::{AllocError, Global};
use std::collections::BTreeMap;

mod table;

pub use table::Names;

impl Names {
    // No names.
    pub fn new(heap: Global) -> Names
        ensures { names result ≡ [] }
    {
        Names {
            list: Vec::new(heap),
            numbers: BTreeMap::new(heap),
        }
    }

    // How many names there are. No two of them are equal.
    pub fn len(&self) -> usize
        ensures value { result ≡ length (names self.now) }
        ensures distinct { Distinct (names self.now) }
    {
        self.list.len()
    }

    // The names in the order of their numbers.
    pub fn list(&self) -> &[String]
        ensures { map string_bytes result.now ≡ names self.now }
    {
        self.list.as_slice()
    }

    // The name with the number `i`.
    pub fn name(&self, i: usize) -> Option<&str>
        ensures { option_map (λ x. x.now) result ≡ slice_get (names self.now) i }
    {
        self.list.get(i).map(|name| name.as_str())
    }

    // The number of a name.
    pub fn number_of(&self, name: &str) -> Option<usize>
        ensures { result ≡ place (names self.now) name.now }
    {
        self.numbers.get(name).copied()
    }

    // The number of a name, which is noted first where it is new. Where memory fails, the names are as they were.
    pub fn note(&mut self, heap: Global, name: &str) -> Result<usize, AllocError>
        ensures { MatchResult result (λ i. Noted self.old name.now i self.new) (λ _. names self.new ≡ names self.old) }
    {
        if let Some(i) = self.number_of(name) {
            return Ok(i);
        }
        let i = self.len();
        let key = String::from_str(heap, name)?;
        let copy = String::from_str(heap, name)?;
        self.list.reserve(1)?;
        self.numbers.insert(key, i)?;
        self.list.push_reserved(copy);
        Ok(i)
    }
}
