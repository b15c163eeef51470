// The parts of a drawing's text.
ghost use Rattle.std.specs.Prelude.{◌≡◌, [], ◌∷◌, ◌++◌, map, string_bytes, OnOk, slice_index_or};
ghost use Rattle.std.specs.Option.{option_map, option_to_list};
ghost use Rattle.std.specs.List.{flat_map};
ghost use Rattle.names.specs.Numbered.{names};
ghost use Rattle.script.specs.Grammar.{machine, state};
ghost use Rattle.script.specs.Printed.{written};
ghost use Rattle.drawing.specs.Code.{planned};
ghost use Rattle.drawing.specs.Facts.{spelled};
ghost use Rattle.drawing.specs.Written.{line_of};

use crate::{Arrow, Drawing};
use names::Names;
use script::push_name;
use std::alloc::AllocError;

// The name with the number `i`, or nothing.
// Kept: no `unwrap`. A drawing's numbers all have a name, but each contract up to `print` would have to ask for that.
pub fn name_at(table: &Names, i: usize) -> &str
    ensures { result.now ≡ slice_index_or (names table.now) i [] }
{
    table.name(i).unwrap_or("")
}

// A line of a word and a name.
pub fn push_line(out: &mut String, head: &str, name: &str) -> Result<(), AllocError>
    ensures { OnOk result (string_bytes out.new ≡ string_bytes out.old ++ ((head.now ++ written name.now) ++ (10 ∷ []))) }
{
    out.push_str(head)?;
    push_name(out, name)?;
    out.push('\n')
}

// The line of the title, if there is one.
pub fn push_title(out: &mut String, title: Option<&str>) -> Result<(), AllocError>
    ensures { OnOk result (string_bytes out.new ≡ string_bytes out.old ++ flat_map line_of (map machine (option_to_list (option_map (λ x. x.now) title.entry)))) }
{
    match title {
        Some(name) => push_line(out, "machine ", name),
        None => Ok(()),
    }
}

// A line for each state.
pub fn push_states(out: &mut String, states: &Names) -> Result<(), AllocError>
    ensures { OnOk result (string_bytes out.new ≡ string_bytes out.old ++ flat_map line_of (map state (names states.now))) }
{
    for name in states.list() {
        push_line(out, "state ", name.as_str())?;
    }
    Ok(())
}

// The line of a transition.
fn push_arrow(out: &mut String, drawing: &Drawing, arrow: Arrow) -> Result<(), AllocError>
    ensures { OnOk result (string_bytes out.new ≡ string_bytes out.old ++ line_of (spelled (names drawing.now.states) (names drawing.now.buttons) arrow)) }
{
    push_name(out, name_at(&drawing.states, arrow.source))?;
    out.push_str(": ")?;
    push_name(out, name_at(&drawing.buttons, arrow.button))?;
    push_line(out, " -> ", name_at(&drawing.states, arrow.target))
}

// A line for each transition.
pub fn push_arrows(out: &mut String, drawing: &Drawing) -> Result<(), AllocError>
    ensures { OnOk result (string_bytes out.new ≡ string_bytes out.old ++ flat_map line_of (map (spelled (planned drawing.now).states (planned drawing.now).buttons) (planned drawing.now).arrows)) }
{
    for arrow in drawing.arrows() {
        push_arrow(out, drawing, *arrow)?;
    }
    Ok(())
}
