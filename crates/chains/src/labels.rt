// A set of labels for each block: bits of two words.
ghost use Rattle.std.specs.Prelude.{◌≡◌, ℕ, ◌+◌, ◌*◌, ◌<◌, ◌≤◌, ◌&&◌, length, if◌then◌else◌, ◌==◌, nat_eq};
ghost use Rattle.chains.specs.Labels.{in_set};

// Takes all labels out of the set of a block.
pub fn empty(sets: &mut [u32], block: u32)
    requires { 2 * block + 2 ≤ length sets.old }
    ensures { (b a : ℕ) → a < 64 → in_set sets.new b a ≡ (if nat_eq b block then 0 else in_set sets.old b a) }
{
    let at = 2 * block as usize;
    sets[at] = 0;
    sets[at + 1] = 0;
}

// Puts a label into the set of a block.
pub fn add_label(sets: &mut [u32], block: u32, label: u32)
    requires label { label < 64 }
    requires room { 2 * block + 2 ≤ length sets.old }
    ensures { (b a : ℕ) → a < 64 → in_set sets.new b a ≡ (if nat_eq b block && a == label then 1 else in_set sets.old b a) }
{
    lent::set_bit(sets, 64 * block as usize + label as usize);
}

// Whether a label is in the set of a block.
pub fn has_label(sets: &[u32], block: u32, label: u32) -> bool
    ensures { result ≡ (in_set sets.now block label == 1) }
{
    lent::has_bit(sets, 64 * block as usize + label as usize)
}
