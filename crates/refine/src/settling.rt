// Rounds settle states against the blocks with which they begin.
ghost use Rattle.std.specs.Prelude.{◌≡◌, ℕ, ◌+◌, ◌*◌, ◌^◌, ◌<◌, ◌≤◌, length, slice_index};
ghost use Rattle.chains.specs.System.{machine_of};
ghost use Rattle.chains.specs.Matching.{LeadsOn, related};
ghost use Rattle.formulas.specs.Adding.{birth_of};
ghost use Rattle.formulas.specs.Link.{births_of, Link};
ghost use Rattle.theory.specs.Births.{birth, next_birth, rounds};
ghost use Rattle.refine.specs.Born.{birth_in};
ghost use Rattle.refine.specs.Rounds.{Fixed, Sofar, Turning, Turned, After, Done};

use crate::refined::Counts;
use crate::round::Round;
use chains::{Blocks, State, System};
use formulas::{Birth, add_formula};
use lts::Transition;

// The birth for a transition that the state `lack` does not match.
fn birth_for(t: Transition, level: u32, lack: State) -> Birth
    requires { lack.0 < 2 ^ 32 }
    ensures { birth_of result ≡ birth level lack.0 t }
{
    Birth {
        level,
        label: t.label,
        reach: t.target,
        lack: lack.0 as u32,
    }
}

// What parts `p` and `s`: a transition of `p` that `s` lacks, or else one of `s` that `p` lacks.
fn next_birth(blocks: Blocks, level: u32, p: State, s: State, sets: &mut [u32]) -> Option<Birth>
    requires room { length sets.old ≡ 2 * length blocks.system.first.now }
    requires few { length blocks.system.first.now < 2 ^ 32 }
    requires one { p.0 < length blocks.system.first.now }
    requires other { s.0 < length blocks.system.first.now }
    ensures { birth_in result ≡ next_birth (machine_of (length blocks.entry.system.first.now) blocks.entry.system.words.now) (related blocks.entry.old.now) level p.0 s.0 }
{
    if let Some(j) = blocks.unmatched(p, s, sets) {
        return Some(birth_for(blocks.system.transition(j), level, s));
    }
    let j = blocks.unmatched(s, p, sets)?;
    Some(birth_for(blocks.system.transition(j), level, p))
}

// One turn of settling `s`: adds the formula that parts it from its leader, if there is one.
// Kept: rows, leaders and births as parameters, here and below, as in `add_formula`.
fn turn(
    round: Round,
    s: State,
    count: usize,
    rows: &mut [u32],
    leads: &mut [u32],
    births: &mut [u32],
    scratch: &mut [u32],
) -> bool
    requires state { s.0 < length round.blocks.system.first.now }
    requires link { Link (machine_of (length round.blocks.system.first.now) round.blocks.system.words.now) (births_of births.old count) rows.old round.width leads.old }
    requires turning { Turning (machine_of (length round.blocks.system.first.now) round.blocks.system.words.now) round.number (rounds (machine_of (length round.blocks.system.first.now) round.blocks.system.words.now) round.number) s.0 (births_of births.old count) }
    requires births { 128 * round.width ≤ length births.old }
    requires scratch { round.width + 4 * length round.blocks.system.first.now ≤ length scratch.old }
    ensures { Turned result (machine_of (length round.entry.blocks.system.first.now) round.entry.blocks.system.words.now) round.entry.number s.0 round.entry.width count leads.old births.new rows.new leads.new }
{
    let blocks = round.blocks;
    let level = round.number + 1;
    let leader = State(leads[s.0] as usize);
    let (sets, rest) = scratch.split_at_mut(2 * blocks.system.first.len());
    let Some(birth) = next_birth(blocks, level, leader, s, sets) else {
        return false;
    };
    add_formula(
        blocks.system,
        birth,
        count,
        round.width,
        rows,
        leads,
        births,
        rest,
    );
    true
}

// A round: settles each state against the blocks with which the round began, by formulas until nothing parts it from its leader. Gives how many formulas there are then.
fn run_round(
    round: Round,
    count: usize,
    rows: &mut [u32],
    leads: &mut [u32],
    births: &mut [u32],
    scratch: &mut [u32],
) -> usize
    requires sofar { Sofar (machine_of (length round.blocks.system.first.now) round.blocks.system.words.now) round.number 0 round.width births.old count rows.old leads.old }
    requires births { 128 * round.width ≤ length births.old }
    requires scratch { round.width + 4 * length round.blocks.system.first.now ≤ length scratch.old }
    ensures { Sofar (machine_of (length round.entry.blocks.system.first.now) round.entry.blocks.system.words.now) round.entry.number (length round.entry.blocks.system.first.now) round.entry.width births.new result rows.new leads.new }
{
    let mut count = count;
    // Kept: the labels and the index, since a rule of the project has nested loops with labels here.
    'states: for s in 0..round.blocks.system.first.len() {
        'turns: loop {
            if !turn(round, State(s), count, rows, leads, births, scratch) {
                continue 'states;
            }
            count += 1;
        }
    }
    count
}

// The blocks with which a round begins: those of the leaders, which are kept as they are then.
// Kept: lengths as clauses, since the words are lent as `&mut` beside the value.
fn begin_round<'a>(
    system: System<'a>,
    leads: &[u32],
    old: &'a mut [u32],
    links: &'a mut [u32],
    scratch: &mut [u32],
) -> Blocks<'a>
    requires led { length leads.now ≡ length system.first.now }
    requires leaders { (s : ℕ) → s < length system.first.now → slice_index leads.now s < length system.first.now }
    requires each { length old.old ≡ length leads.now }
    requires links { length links.old ≡ length system.next.now }
    requires scratch { 2 * length system.first.now ≤ length scratch.old }
    ensures machine { result.system ≡ system.entry }
    ensures copied { result.old.now ≡ leads.now }
    ensures firsts { (j : ℕ) → j < length system.entry.next.now → LeadsOn system.entry.words.now result.old.now (length system.entry.next.now) j (slice_index result.links.now j) }
{
    old.copy_from_slice(leads);
    let (sets, _) = scratch.split_at_mut(2 * system.first.len());
    Blocks::represent(system, old, sets, links)
}

// Rounds until one adds nothing.
// Kept: a counter of rounds. A `for` would want a bound, and something to give after it.
pub fn run_rounds(
    system: System,
    width: usize,
    old: &mut [u32],
    links: &mut [u32],
    rows: &mut [u32],
    leads: &mut [u32],
    births: &mut [u32],
    scratch: &mut [u32],
) -> Counts
    requires fixed { Fixed system.words.now system.first.now system.next.now width }
    requires each { length old.old ≡ length leads.old }
    requires links { length links.old ≡ length system.next.now }
    requires start { After (machine_of (length system.first.now) system.words.now) 0 width births.old 0 rows.old leads.old }
    requires births { 128 * width ≤ length births.old }
    requires scratch { width + 4 * length system.first.now ≤ length scratch.old }
    ensures { Done (machine_of (length system.entry.first.now) system.entry.words.now) result.rounds width births.new result.formulas rows.new leads.new }
{
    let mut count = 0;
    let mut number = 0;
    loop {
        let blocks = begin_round(system, leads, old, links, scratch);
        let round = Round {
            number,
            width,
            blocks,
        };
        let after = run_round(round, count, rows, leads, births, scratch);
        if after == count {
            return Counts {
                formulas: count,
                rounds: number,
            };
        }
        count = after;
        number += 1;
    }
}
