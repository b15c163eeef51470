// Leaders after a formula: a block's states that answer otherwise than its leader become a block.
ghost use Rattle.std.specs.Prelude.{◌≡◌, ℕ, ◌^◌, ◌<◌, length, slice_index, slice_set, ◌≢◌};
ghost use Rattle.formulas.specs.Splits.{Led, part_with};

// The first state of the part that breaks off from `leader`'s block, once `state` has. None is `unset`.
// Kept: a number for none, since lent words hold numbers.
fn part_of(parts: &mut [u32], leader: usize, state: u32, unset: u32) -> u32
    requires { leader < length parts.old }
    ensures first { result ≡ part_with parts.old unset leader state }
    ensures kept { parts.new ≡ slice_set parts.old leader result }
{
    let part = if parts[leader] == unset {
        state
    } else {
        parts[leader]
    };
    parts[leader] = part;
    part
}

// The leader of state `t`, which is `leader` before: the first of the part that breaks off from the block, if `t` answers otherwise than its leader.
fn led(leader: u32, t: usize, holds: &[u32], parts: &mut [u32]) -> u32
    requires state { t < length holds.now }
    requires few { length holds.now < 2 ^ 32 }
    requires room { length parts.old ≡ length holds.now }
    requires leader { leader < length holds.now }
    ensures same { slice_index holds.now t ≡ slice_index holds.now leader → (result ≡ leader) × (parts.new ≡ parts.old) }
    ensures other { (slice_index holds.now t ≢ slice_index holds.now leader) → (result ≡ part_with parts.old (length holds.now) leader t) × (parts.new ≡ slice_set parts.old leader result) }
{
    if holds[t] == holds[leader as usize] {
        leader
    } else {
        part_of(parts, leader as usize, t as u32, holds.len() as u32)
    }
}

// Leaders after a formula that the states with `holds` 1 satisfy: in each block those that answer otherwise than the leader get the least of them.
pub fn split(leads: &mut [u32], holds: &[u32], parts: &mut [u32])
    requires few { length leads.old < 2 ^ 32 }
    requires answers { length holds.now ≡ length leads.old }
    requires room { length parts.old ≡ length leads.old }
    requires leaders { (t : ℕ) → t < length leads.old → slice_index leads.old t < length leads.old }
    ensures { Led leads.old holds.now (length leads.old) leads.new }
{
    lent::fill(parts, leads.len() as u32);
    for (t, leader) in leads.iter_mut().enumerate() {
        *leader = led(*leader, t, holds, parts);
    }
}
