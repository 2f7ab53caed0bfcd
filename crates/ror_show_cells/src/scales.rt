//! What a cell says of a criterion's direction and scale.

ghost use Rattle.std.specs.Prelude.{◌≡◌};
ghost use Rattle.ror_show_cells.specs.Scales as spec;

use crate::looks::place_of;
use ror_table::{Direction, Scale};

/// The scale that a cell says: `min` or `max`, and maybe ` linear`.
#[tactic(auto, unfolding(crate::specs::Scales::scale_in))]
pub fn scale_in(cell: &[u8]) -> Option<Scale>
    ensures { result ≡ spec.scale_in cell.now }
{
    match place_of(b' ', cell) {
        Some(place) => linear_scale(&cell[..place], &cell[place + 1..]),
        None => Some(Scale {
            direction: direction_in(cell)?,
            linear: false,
        }),
    }
}

fn linear_scale(before: &[u8], behind: &[u8]) -> Option<Scale>
    ensures { result ≡ spec.linear_scale before.now behind.now }
{
    if behind != b"linear".as_slice() {
        return None;
    }
    Some(Scale {
        direction: direction_in(before)?,
        linear: true,
    })
}

fn direction_in(word: &[u8]) -> Option<Direction>
    ensures { result ≡ spec.direction_in word.now }
{
    match word {
        b"max" | b"Max" | b"MAX" => Some(Direction::Max),
        b"min" | b"Min" | b"MIN" => Some(Direction::Min),
        _ => None,
    }
}
