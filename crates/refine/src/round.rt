// Rounds.
ghost use Rattle.std.specs.Prelude.{ℕ, ◌<◌, length};
ghost use Rattle.chains.specs.System.{machine_of};
ghost use Rattle.refine.specs.Rounds.{Fixed, Begun};

use chains::Blocks;

// A round by its number, with the blocks with which it begins, and how wide rows are.
#[derive(Clone, Copy)]
pub struct Round<'a> {
    pub number: u32,
    pub width: usize,
    pub blocks: Blocks<'a>,
    ghost fixed: { Fixed blocks.system.words.now blocks.system.first.now blocks.system.next.now width },
    ghost begun: { Begun (machine_of (length blocks.system.first.now) blocks.system.words.now) number blocks.old.now },
    ghost early: { number < 4096 },
}
