// Readable over the marks at role level.
#![tactic(auto)]

ghost use Rattle.std.specs.Prelude.{◌<◌};
ghost use Rattle.rows.specs.Rows.{rows_of};
ghost use Rattle.open_marks.specs.Sure.{SureRows, Noted, Answers};

use cells::Marks;
use open_marks::{Notes, Way};
use role_level::RoleLevel;
use rows::Kind;

// Whether the term of row x is readable: derivable, a variable, a pair of which each part is readable with the other known,
// or an encryption whose key's inverse is derivable and whose content is readable. A row is sure if it is readable with these
// marks or more. Before a pair is read, what is beneath its parts is tried with what both ways have in common: where that is
// readable, it is not read twice. A quick answer, which only tries, may be no though the term is readable.
pub fn is_readable(
    marks: Marks,
    sure: Marks,
    level: &RoleLevel,
    notes: &mut Notes,
    // stays: the tries are calls of this function by itself, so that a function for each answer would stand twice
    quick: bool,
    x: usize,
) -> bool
    requires { SureRows (rows_of level.now.table.bytes.now) marks sure × (Noted (rows_of level.now.table.bytes.now) notes.old × (x < level.now.table.rows)) }
    ensures { Answers (rows_of level.now.table.bytes.now) marks x quick result × Noted (rows_of level.now.table.bytes.now) notes.new }
{
    if marks[x] || sure[x] {
        return true;
    }
    let t = &level.table;
    let kind = t.kind_of(x);
    if kind == Kind::Variable {
        return true;
    }
    if kind == Kind::Pair {
        if notes.is_kept(&marks, t.rows, x) {
            return true;
        }
        if open_marks::gives_up(marks, &sure, level, notes, quick, x) {
            return false;
        }
        let l = t.left_of(x);
        let s = t.right_of(x);
        let with_second = open_marks::learned(marks, level, s);
        let with_first = open_marks::learned(marks, level, l);
        let both = open_marks::shared(&with_second, &with_first, t.rows);
        let c = open_marks::content_of(&with_second, t, l);
        let found = is_readable(both, sure, level, notes, true, c);
        let more = open_marks::added(sure, found.then_some(c));
        let d = open_marks::content_of(&with_first, t, s);
        let found_too = is_readable(both, more, level, notes, true, d);
        let most = open_marks::added(more, found_too.then_some(d));
        if !is_readable(with_second, most, level, notes, quick, l) {
            notes.ways[x] = Some(Way::First);
            return false;
        }
        if !is_readable(with_first, most, level, notes, quick, s) {
            notes.ways[x] = Some(Way::Second);
            return false;
        }
        notes.keep(&marks, t.rows, x);
        return true;
    }
    if kind == Kind::Encrypted {
        if open_marks::inverse_known(&marks, t, t.right_of(x)) {
            notes.ways[x] = None;
            return is_readable(marks, sure, level, notes, quick, t.left_of(x));
        }
        notes.ways[x] = Some(Way::Shut);
        return false;
    }
    false
}
