// The museum's question, as an example of the definitions.
ghost use Rattle.std.specs.Prelude.{◌≡◌};
ghost use Rattle.lts.specs.Line.{lines_words};
ghost use Rattle.lts.specs.Museum.{asked, choice_lines, ToldApart, AsLines};
ghost use Rattle.lts.specs.Question.{Encodes};

// The museum's question as words.
pub fn question() -> [u32; 25]
    ensures { Encodes result asked }
{
    [
        8, 7, 0, 1, 1, 1, 2, 7, 1, 3, 7, 4, 1, 5, 4, 1, 6, 5, 2, 7, 6, 3, 7, 0, 4,
    ]
}

// What tells its two states apart, as lines.
pub fn lines() -> [u32; 15]
    ensures words { result ≡ lines_words choice_lines }
    ensures say { AsLines }
{
    [0, 0, 0, 3, 2, 0, 3, 3, 0, 2, 1, 2, 3, 1, 3]
}

// How many steps ahead one has to look to tell them apart: one for the coin, one for the choice.
pub fn depth() -> usize
    ensures { ToldApart result }
{
    1 + 1
}
