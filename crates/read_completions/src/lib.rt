// Whether a partial choice of values has a completion with which a row is derivable: the classes that each unset variable may still get are narrowed until
// none falls away, and tried one by one where variables are tied to each other.
#![tactic(auto)]

ghost use Rattle.std.specs.Prelude.{◌≡◌, false, ◌<◌, IfSome};
ghost use Rattle.cells.specs.Cells.{cell_count};
ghost use Rattle.variables.specs.Variables.{In};
ghost use Rattle.read_completions.specs.Completions.{NeedsAt, NeededAdded, Matched, MissesNone, SetsBelow, NoneEmpty, CompletionsKept, Completable, Completes};

mod known;
mod pattern;

use cells::{Cells, Classes, Marks, Scope, cell};
use known::Known;
pub use pattern::Pattern;
use read_domains::{ClassSet, Counted, Domains};
use rows::Kind;
use std::array;
use variables::VariableRows;

// What rows need so that row r gets the value of a marked cell, if that is of its kind and stands for its own value, and the domains have what variables need.
fn needs_at(pattern: &Pattern, dom: &Domains, r: usize, c: usize) -> Option<[u16; 96]>
    requires { (r < pattern.now.scope.table.rows) × (c < cell_count) }
    ensures { NeedsAt pattern.now dom.now r c result }
{
    let t = &pattern.scope.table;
    let (y, _) = cells::place_of(c);
    let class = pattern.classes[c];
    if t.rows <= y || usize::from(class) != c || t.kind_of(y) != t.kind_of(r) {
        return None;
    }
    let need = read_fits::needs_of(pattern.classes, &pattern.scope, r, class)?;
    read_domains::fit(dom, pattern.vars, &need).then_some(need)
}

// Adds the class that variable i needs to a set, or every class if it needs none.
fn admit(set: &mut ClassSet, vars: VariableRows, i: usize, need: &[u16; 96])
    requires { i < vars.count }
    ensures { NeededAdded vars i need.now set.old set.new }
{
    let class = need[vars.rows[i]];
    if class < Cells::ABSENT {
        set[usize::from(class)] = true;
    } else {
        *set = [true; Cells::COUNT];
    }
}

// The classes that variable i gets where row r gets the value of a marked cell.
fn matched(pattern: &Pattern, dom: &Domains, i: usize, r: usize) -> ClassSet
    requires { (i < pattern.now.vars.count) × (r < pattern.now.scope.table.rows) }
    ensures { Matched pattern.now dom.now i r result }
{
    let mut set = [false; Cells::COUNT];
    for c in 0..Cells::COUNT {
        if pattern.marks[c] {
            if let Some(need) = needs_at(pattern, dom, r, c) {
                admit(&mut set, pattern.vars, i, &need);
            }
        }
    }
    set
}

// The classes that variable i gets where an unset variable is derivable: its own are those that are marked, and another must have one such class.
fn leaf(dom: &Domains, known: &Known, i: usize, r: usize) -> ClassSet
    requires { i < known.now.pattern.vars.count }
    ensures { MissesNone known.now.pattern dom.now i r (In result) }
{
    match read_domains::slot_of(known.pattern.vars, r) {
        None => [true; Cells::COUNT],
        Some(slot) if slot == i => known.marked[i],
        Some(slot) => [read_domains::meet(&dom[slot], &known.marked[slot]); Cells::COUNT],
    }
}

// The classes that variable i gets where row r is derivable, by those of its parts.
fn set_at(sets: &[ClassSet; 96], known: &Known, dom: &Domains, i: usize, r: usize) -> ClassSet
    requires { SetsBelow known.now.pattern dom.now i r sets.now }
    ensures { MissesNone known.now.pattern dom.now i r (In result) }
{
    let pattern = &known.pattern;
    let t = &pattern.scope.table;
    if knowledge::class_at(pattern.classes, r, pattern.scope.run) < Cells::ABSENT {
        return [pattern.marks[cell(r, pattern.scope.run)]; Cells::COUNT];
    }
    let kind = t.kind_of(r);
    if !kind.is_made() {
        return leaf(dom, known, i, r);
    }
    let set = if kind == Kind::Pair {
        [false; Cells::COUNT]
    } else {
        matched(pattern, dom, i, r)
    };
    if kind.is_compound() {
        return read_domains::join(set, &sets[t.left_of(r)], &sets[t.second_of(r)]);
    }
    set
}

// The classes that variable i gets where the pattern is derivable.
fn set_of(known: &Known, dom: &Domains, i: usize) -> ClassSet
    requires { i < known.now.pattern.vars.count }
    ensures { MissesNone known.now.pattern dom.now i known.now.pattern.row (In result) }
{
    let row = known.pattern.row;
    let mut sets = [[true; Cells::COUNT]; 96];
    for r in 0..=row {
        if known.below[r] {
            sets[r] = set_at(&sets, known, dom, i, r);
        }
    }
    sets[row]
}

// Whether variable i may get more than one class. The first is always looked at, since any shows that there is no completion.
fn is_open(dom: &Domains, i: usize) -> bool
    requires { i < 8 }
{
    i == 0 || 1 < read_domains::size(&dom[i])
}

// The domains, each that has more than one class narrowed once to those that its variable gets where the pattern is derivable.
fn narrowed(dom: Domains, known: &Known) -> Domains
    ensures { CompletionsKept known.now.pattern dom result }
{
    let mut less = dom;
    for i in 0..known.pattern.vars.count {
        if is_open(&less, i) {
            let set = set_of(known, &less, i);
            read_domains::narrow(&mut less, i, &set);
        }
    }
    less
}

// How many classes each domain has.
fn sizes(dom: &Domains, vars: VariableRows) -> [usize; 8] {
    array::from_fn(|i| {
        if i < vars.count {
            read_domains::size(&dom[i])
        } else {
            0
        }
    })
}

// The domains, narrowed until no class falls away.
fn settled(dom: Domains, known: &Known) -> Domains
    ensures { CompletionsKept known.now.pattern dom result }
{
    let vars = known.pattern.vars;
    let mut less = dom;
    for _ in 0..Cells::COUNT {
        let before = sizes(&less, vars);
        less = narrowed(less, known);
        if sizes(&less, vars) == before {
            return less;
        }
    }
    less
}

// Whether a domain has no class.
fn is_empty(dom: &Domains, vars: VariableRows) -> bool
    ensures { NoneEmpty vars dom.now → result ≡ false }
{
    (0..vars.count).any(|i| read_domains::size(&dom[i]) == 0)
}

// The variable with the smallest domain of those beneath a row that may get more than one class, and of one that is given, if there are two such; or else the
// one that is given.
fn smallest(
    vars: VariableRows,
    sizes: &[usize; 8],
    under: &[bool; 96],
    given: Option<usize>,
) -> Option<usize>
    requires { IfSome given (λ i. i < vars.count) }
    ensures { IfSome result (λ i. i < vars.count) }
{
    let mut found: usize = 0;
    let mut best = given;
    for i in 0..vars.count {
        if under[vars.rows[i]] && 1 < sizes[i] {
            found += 1;
            best = match best {
                Some(b) if sizes[b] <= sizes[i] => Some(b),
                _ => Some(i),
            };
        }
    }
    if found < 2 { given } else { best }
}

// A variable that is tied to another by a key or an encryption, both having more than one class to get, if there is one. Any choice is right: variables that
// are not tied need not be tried.
fn tied(known: &Known, dom: &Domains) -> Option<usize>
    ensures { IfSome result (λ i. i < known.now.pattern.vars.count) }
{
    let pattern = &known.pattern;
    let t = &pattern.scope.table;
    let counts = sizes(dom, pattern.vars);
    let mut best = None;
    for r in 0..t.rows {
        if known.below[r] {
            let kind = t.kind_of(r);
            if kind.is_made()
                && kind != Kind::Pair
                && knowledge::class_at(pattern.classes, r, pattern.scope.run) == Cells::ABSENT
            {
                let under = variables::beneath(t, r);
                best = smallest(pattern.vars, &counts, &under, best);
            }
        }
    }
    best
}

// Whether the variables may get classes of the domains with which the pattern is derivable.
fn completable(dom: Domains, known: &Known, depth: usize) -> bool
    ensures { Completable known.now.pattern dom result }
{
    let less = settled(dom, known);
    if is_empty(&less, known.pattern.vars) {
        return false;
    }
    if depth == 0 {
        return true;
    }
    let Some(i) = tied(known, &less) else {
        return true;
    };
    for c in 0..Cells::COUNT {
        if less[i][c] {
            let only = read_domains::narrow_to(less, i, c);
            if completable(only, known, depth - 1) {
                return true;
            }
        }
    }
    false
}

// Whether the unset variables beneath row x may get values with which the row is derivable: true wherever they may. With one such variable alone
// its values are as soon tried.
pub fn completes(classes: &Classes, marks: &Marks, scope: &Scope, x: usize) -> bool
    requires { x < scope.now.table.rows }
    ensures { Completes scope.now.table.bytes.now scope.now.table.rows scope.now.table.runs classes.now marks.now scope.now.run x result }
{
    let below = variables::beneath(&scope.table, x);
    let vars = variables::unset_rows(&scope.table, classes, below, scope.run);
    if vars.count < 2 {
        return true;
    }
    let dom = read_domains::of_variables(classes, marks, Counted::All, &scope.table, vars);
    let marked = read_domains::of_variables(classes, marks, Counted::Marked, &scope.table, vars);
    let pattern = Pattern {
        scope: *scope,
        classes,
        marks,
        row: x,
        vars,
    };
    let known = Known {
        pattern,
        below: &below,
        marked: &marked,
    };
    completable(dom, &known, 8)
}
