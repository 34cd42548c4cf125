// Whether a row can still get the value of a class once more variables of its run are set: what it and the rows below it need.
#![tactic(auto)]

ghost use Rattle.std.specs.Prelude.{◌<◌, ◌≤◌};
ghost use Rattle.knowledge.specs.Steps.{kind_at};
ghost use Rattle.read_fits.specs.Fits.{Asked, PartsAsked, PassedDown, NeedsMet};

use cells::{Cells, Classes, Scope};

// Notes that row q of run u needs a class, unless it has or needs another already.
fn ask(need: &mut [u16; 96], classes: &Classes, u: usize, q: usize, class: u16) -> bool
    requires { (q < 96) × (u ≤ 4) }
    ensures { Asked classes.now u need.old need.new q class result }
{
    let own = knowledge::class_at(classes, q, u);
    if own < Cells::ABSENT {
        return own == class;
    }
    if need[q] < Cells::ABSENT {
        return need[q] == class;
    }
    need[q] = class;
    true
}

// Notes that the parts of row q need the classes of the parts of row y in run w.
fn share(
    need: &mut [u16; 96],
    classes: &Classes,
    scope: &Scope,
    q: usize,
    y: usize,
    w: usize,
) -> bool
    requires { (q < scope.now.table.rows) × ((8 ≤ kind_at scope.now.table.bytes.now q) × ((y < scope.now.table.rows) × ((8 ≤ kind_at scope.now.table.bytes.now y) × (w ≤ scope.now.table.runs)))) }
    ensures { PartsAsked scope.now.table.bytes.now scope.now.table.rows scope.now.table.runs classes.now scope.now.run need.old need.new q y w result }
{
    let t = &scope.table;
    let first = knowledge::class_at(classes, t.left_of(y), w);
    let second = knowledge::class_at(classes, t.second_of(y), w);
    ask(need, classes, scope.run, t.left_of(q), first)
        && ask(need, classes, scope.run, t.second_of(q), second)
}

// Passes on to the parts of row q what the row needs: false where it cannot get that.
fn follow(need: &mut [u16; 96], classes: &Classes, scope: &Scope, q: usize) -> bool
    requires { q < scope.now.table.rows }
    ensures { PassedDown scope.now.table.bytes.now scope.now.table.rows scope.now.table.runs classes.now scope.now.run need.old need.new result }
{
    let t = &scope.table;
    let class = need[q];
    let kind = t.kind_of(q);
    if Cells::ABSENT <= class || !kind.is_made() {
        return true;
    }
    let (y, w) = cells::place_of(usize::from(class));
    if t.rows <= y || t.runs < w || t.kind_of(y) != kind {
        return false;
    }
    share(need, classes, scope, q, y, w)
}

// What row r and the rows below it need so that it gets the value of a class, unless one of them is refused that: one pass from the row down.
pub fn needs_of(classes: &Classes, scope: &Scope, r: usize, class: u16) -> Option<[u16; 96]>
    requires { r < scope.now.table.rows }
    ensures { NeedsMet scope.now.table.bytes.now scope.now.table.rows scope.now.table.runs classes.now scope.now.run r class result }
{
    let mut need = [Cells::ABSENT; 96];
    need[r] = class;
    for q in (0..=r).rev() {
        if !follow(&mut need, classes, scope, q) {
            return None;
        }
    }
    Some(need)
}
