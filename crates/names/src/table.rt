// The table in which names are kept.
ghost use Rattle.names.specs.Table.{Apart, Agrees};

use std::collections::BTreeMap;

// Names in the order of their numbers, no two of them equal, and the number of each.
// Kept: a list and an ordered map. The kit's IndexSet hashes with a fixed seed, and names made to fall together would cost the square of how many there are.
// Kept: no impl Model. Contracts speak of `names` of a table, which specs define over the table itself.
#[derive(Drop)]
pub struct Names {
    pub(crate) list: Vec<String>,
    pub(crate) numbers: BTreeMap<String, usize>,
    ghost apart: { Apart list },
    ghost agrees: { Agrees list numbers },
}
