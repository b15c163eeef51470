// What a text draws.
ghost use Rattle.std.specs.Prelude.{◌<◌, ◌≤◌, T, length};
ghost use Rattle.names.specs.Numbered.{names};
ghost use Rattle.drawing.specs.Arrows.{within};

use names::Names;

// How many states, transitions and buttons can be compared at most.
pub const MOST_STATES: usize = 4096;

pub const MOST_ARROWS: usize = 16384;

pub const MOST_BUTTONS: usize = 64;

// A transition, by the numbers of its names.
#[derive(Clone, Copy)]
pub struct Arrow {
    pub source: usize,
    pub button: usize,
    pub target: usize,
}

// A machine that was drawn: every number in it is that of a name, and there are no more than can be compared.
#[derive(Drop)]
pub struct Drawing {
    pub(crate) title: Option<String>,
    pub(crate) states: Names,
    pub(crate) buttons: Names,
    pub(crate) arrows: Vec<Arrow>,
    pub(crate) start: usize,
    ghost few_states: { length (names states) ≤ 4096 },
    ghost few_buttons: { length (names buttons) ≤ 64 },
    ghost few_arrows: { length arrows.items ≤ 16384 },
    ghost start_within: { start < length (names states) },
    ghost arrows_within: { T (within (length (names states)) (length (names buttons)) arrows.items) },
}
