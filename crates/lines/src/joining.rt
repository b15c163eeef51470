// Joins the terms of a formula, line by line.
ghost use Rattle.std.specs.Prelude.{◌≡◌, ℕ, ◌+◌, ◌*◌, ◌^◌, ◌<◌, ◌≤◌, T, length, ◌==◌, slice_index};
ghost use Rattle.lent.specs.Bits.{bit_at};
ghost use Rattle.theory.specs.Told.{term_line};
ghost use Rattle.lines.specs.Joins.{Joins, TermJoins, body_by, BodyIs, Appends};

use crate::line::{Line, Says, write_line};
use lent::has_bit;

// The line that says all terms so far, and the number of the next line.
// Kept: line 0 while there is no term. It is a line, the one that says yes, so a term joined to it is the term itself.
#[derive(Clone, Copy)]
pub struct Body {
    pub at: Line,
    pub next: usize,
}

// The line of a term: that of a formula if the reached state satisfies it, else the next, which says its negation.
fn term_line(reach: &[u32], i: usize, place: u32) -> Line
    requires { place + 1 < 2 ^ 32 }
    ensures { result.0 ≡ term_line (bit_at reach.now i == 1) place }
{
    if has_bit(reach, i) {
        Line(place)
    } else {
        Line(place + 1)
    }
}

// Joins one term to those so far.
fn join(lines: &mut [u32], body: Body, term: Line) -> Body
    requires room { 3 * body.next + 3 ≤ length lines.old }
    requires fits { body.next < 2 ^ 32 }
    ensures { Joins term.0 body lines.old result lines.new }
{
    let Line(at) = body.at;
    if at == 0 {
        return Body {
            at: term,
            next: body.next,
        };
    }
    write_line(lines, body.next, Says::Both(body.at, term));
    Body {
        at: Line(body.next as u32),
        next: body.next + 1,
    }
}

// Joins formula `i`, which stands at line `place`, if the mask of terms has it.
fn join_term(
    mask: &[u32],
    reach: &[u32],
    i: usize,
    place: u32,
    body: Body,
    lines: &mut [u32],
) -> Body
    requires line { T (bit_at mask.now i == 1) → place + 1 < 2 ^ 32 }
    requires room { 3 * body.next + 3 ≤ length lines.old }
    requires fits { body.next < 2 ^ 32 }
    ensures { TermJoins mask.now reach.now i place body lines.old result lines.new }
{
    if !has_bit(mask, i) {
        return body;
    }
    join(lines, body, term_line(reach, i, place))
}

// Joins those of the oldest `j` formulas that the mask of terms has. The first line that is written is line `next`.
pub fn join_terms(
    mask: &[u32],
    reach: &[u32],
    places: &[u32],
    j: usize,
    next: usize,
    lines: &mut [u32],
) -> Body
    requires places { j ≤ length places.now }
    requires line { (i : ℕ) → i < j → T (bit_at mask.now i == 1) → slice_index places.now i + 1 < 2 ^ 32 }
    requires room { 3 * (next + length (body_by mask.now reach.now places.now next j).ands) + 3 ≤ length lines.old }
    requires fits { next + length (body_by mask.now reach.now places.now next j).ands < 2 ^ 32 }
    ensures body { BodyIs result next (body_by mask.now reach.now places.now next j) }
    ensures lines { Appends lines.old next (body_by mask.now reach.now places.now next j).ands lines.new }
{
    let mut body = Body { at: Line(0), next };
    for (i, place) in places[0..j].iter().enumerate() {
        body = join_term(mask, reach, i, *place, body, lines);
    }
    body
}
