// How many words have to be lent.
ghost use Rattle.std.specs.Prelude.{◌≡◌, ◌+◌, ◌-◌, ◌*◌, ◌^◌, ◌<◌, Decides, min};

// What is asked for with any question.
const BASE: usize = 65536;

// What is asked for with each of its words.
const FOR_EACH: usize = 128;

// Whether `lent` words are too few for a question of so many words.
pub fn is_few(words: usize, lent: usize) -> bool
    ensures { Decides result (lent < 65536 + 128 * words) }
{
    lent < BASE || (lent - BASE) / FOR_EACH < words
}

// How many words to lend for a question of so many words: as many as are asked for, if a number can say it.
pub fn to_lend(words: usize) -> usize
    ensures { result ≡ min (65536 + 128 * words) (2 ^ 64 - 1) }
{
    words.saturating_mul(FOR_EACH).saturating_add(BASE)
}
