//! Cursors, which tell the line and the name that are in force as they move on in a source.

ghost use Rattle.std.specs.Prelude.{◌≡◌, ◌≤◌, ◌<◌, ◌^◌, ℕ};
ghost use Rattle.source_scan.specs.Positions.{in_force_of, changed_to, at_front, line_number_at};
ghost use Rattle.source_scan.specs.Cursors.{IsMoved};

use crate::position::{PlacedChange, SourcePosition, changed, line_at};

/// What is in force from a place on, with the changes behind it.
#[derive(Clone, Copy, Debug)]
pub struct Cursor<'a> {
    pub position: SourcePosition<'a>,
    pub changes: &'a [PlacedChange],
}

/// The cursor at the front of a source.
pub(crate) fn front_cursor<'a>(file: &'a [u8], changes: &'a [PlacedChange]) -> Cursor<'a>
    ensures position { in_force_of result.position ≡ at_front file.now }
    ensures changes { result.changes.now ≡ changes.now }
{
    let position = SourcePosition {
        from: 0,
        number: 1,
        name: file,
    };
    Cursor { position, changes }
}

/// The cursor behind the changes up to a place.
fn past_changes<'a>(cursor: Cursor<'a>, place: usize) -> Cursor<'a>
    requires { cursor.position.from ≤ place }
    ensures from { result.position.from ≤ place }
    ensures same { (k : ℕ) → place ≤ k → changed_to k (in_force_of cursor.entry.position) cursor.entry.changes.now
        ≡ changed_to k (in_force_of result.position) result.changes.now }
    ensures none { changed_to place (in_force_of result.position) result.changes.now ≡ in_force_of result.position }
{
    let mut position = cursor.position;
    let mut changes = cursor.changes;
    while let [placed, behind @ ..] = changes {
        if placed.from > place {
            return Cursor { position, changes };
        }
        position = changed(position, placed);
        changes = behind;
    }
    Cursor { position, changes }
}

/// The cursor moved on to a place.
pub(crate) fn moved_to<'a>(source: &[u8], cursor: Cursor<'a>, place: usize) -> Cursor<'a>
    requires from { cursor.position.from ≤ place }
    requires line { line_number_at source.now
        (changed_to place (in_force_of cursor.position) cursor.changes.now) place < 2 ^ 32 }
    ensures { IsMoved source.now cursor.entry place result }
{
    let behind = past_changes(cursor, place);
    let position = SourcePosition {
        from: place,
        number: line_at(source, behind.position, place),
        name: behind.position.name,
    };
    Cursor {
        position,
        changes: behind.changes,
    }
}
