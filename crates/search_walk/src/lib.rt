// Search: the walk through a list of allowed traces in its order. States that were walked whole are remembered, and not walked again.
#![tactic(auto)]

ghost use Rattle.std.specs.Prelude.{◌≡◌, ◌<◌, length};
ghost use Rattle.search_breaks.specs.Walk.{state_of, SomeState, SomeClear, SomeChoice, SomeMove, SomeStep, FindsFrom, FindsRun, FindsChoice, FindsMove, FindsStep};
ghost use Rattle.search_same.specs.Memory.{Remembers, Room};

use answers::Walked;
use cells::{Cells, Classes, Marks, Names, Scope};
use records::EventKind;
use search_breaks::{Choice, Course, Plan, Reach, Turn};
use search_memory::Words;

// A state by its parts: how far the runs have come, names and classes, which only a read changes and which are lent, and the marks.
#[derive(Clone, Copy)]
pub struct Parts<'a> {
    pub course: Course,
    pub names: &'a Names,
    pub classes: &'a Classes,
    pub marks: Marks,
    // the array's type says it too, but where the array is not read that is not known
    pub ghost size: { length course.done ≡ 4 },
}

// Walks through the traces from a state on. The memory stays right.
#[cycle(walk_walk_after_walk_move_walk_run_walk_values)]
pub fn walk(
    trace: &mut [u8],
    memory: &mut Words,
    plan: &Plan,
    state: &Parts,
    reach: Reach,
) -> Walked
    requires some_state { SomeState plan.now (state_of state.now.course state.now.names.now state.now.classes.now state.now.marks) reach.at }
    requires room { Room plan.now trace.old memory.old reach }
    ensures finds_from { FindsFrom plan.now (state_of state.now.course state.now.names.now state.now.classes.now state.now.marks) reach trace.old trace.new result }
    ensures remembers { Remembers plan.now memory.new }
{
    let done = state.course.done;
    let claimed = claims::broken(&plan.opened, done, state.marks);
    let mut count = search_findings::own(reach.left, claimed)?;
    if reach.depth == 0 {
        return Ok(count);
    }
    for k in search_runs::runs_in(plan.list, &plan.opened, done) {
        let found = walk_run(
            trace,
            memory,
            plan,
            state,
            Reach {
                left: reach.left - count,
                at: reach.at,
                depth: reach.depth - 1,
            },
            k,
        );
        count = search_findings::behind(count, found)?;
    }
    Ok(count)
}

// Walks through the traces that go on with run k, from a state whose own trace breaks no claim.
#[cycle(walk_walk_after_walk_move_walk_run_walk_values)]
fn walk_run(
    trace: &mut [u8],
    memory: &mut Words,
    plan: &Plan,
    state: &Parts,
    reach: Reach,
    k: usize,
) -> Walked
    requires some_clear { SomeClear plan.now (state_of state.now.course state.now.names.now state.now.classes.now state.now.marks) reach.at }
    requires room { Room plan.now trace.old memory.old reach }
    requires k_lt_count { k < plan.now.opened.runs.count }
    ensures finds_run { FindsRun plan.now (state_of state.now.course state.now.names.now state.now.classes.now state.now.marks) reach k trace.old trace.new result }
    ensures remembers { Remembers plan.now memory.new }
{
    let done = state.course.done;
    let Some(event) = plan.opened.next_event(k, done[k]) else {
        return Ok(0);
    };
    let turn = Turn {
        run: k,
        event,
        values: search_breaks::no_values(),
    };
    if event.kind == EventKind::Read {
        let under = variables::beneath(&plan.opened.table, event.row);
        return walk_values(
            trace,
            memory,
            plan,
            state.names,
            state,
            reach,
            Choice {
                turn,
                under,
                from: 0,
            },
        );
    }
    walk_move(trace, memory, plan, state, reach, turn)
}

// Walks through the traces that go on with a read and the values chosen for it so far. Own names are the state's before it; the state has those values.
#[cycle(walk_walk_after_walk_move_walk_run_walk_values)]
fn walk_values(
    trace: &mut [u8],
    memory: &mut Words,
    plan: &Plan,
    own: &Names,
    state: &Parts,
    reach: Reach,
    choice: Choice,
) -> Walked
    requires some_choice { SomeChoice plan.now state.now.course own.now state.now.names.now state.now.classes.now state.now.marks reach.at choice }
    requires room { Room plan.now trace.old memory.old reach }
    ensures finds_choice { FindsChoice plan.now state.now.course own.now state.now.names.now state.now.classes.now state.now.marks reach choice trace.old trace.new result }
    ensures remembers { Remembers plan.now memory.new }
{
    let turn = choice.turn;
    let event = turn.event;
    let values = turn.values;
    let under = choice.under;
    let t = &plan.opened.table;
    let Some(x) = variables::next_unset(t, own, &under, turn.run + 1, choice.from) else {
        return walk_move(trace, memory, plan, state, reach, turn);
    };
    if !read_partial::may_be_read(state.classes, &state.marks, t, turn.run, event) {
        return Ok(0);
    }
    let mut count = 0;
    let mut row = 0;
    let mut run = 0;
    // stays: each value is found from the one before it, and what is promised goes by the row and run that come next (`Tried`)
    while let Some(value) = variables::next_value(t, x, row, run) {
        let mut more = [0; Cells::COUNT];
        let mut more_classes = [0; Cells::COUNT];
        let more_marks = values::tried(
            &mut more,
            &mut more_classes,
            state.names,
            state.classes,
            state.marks,
            &Scope {
                table: *t,
                run: choice.turn.run + 1,
            },
            x,
            value,
        );
        let found = walk_values(
            trace,
            memory,
            plan,
            own,
            &Parts {
                course: state.course,
                names: &more,
                classes: &more_classes,
                marks: more_marks,
            },
            Reach {
                left: reach.left - count,
                at: reach.at,
                depth: reach.depth,
            },
            Choice {
                turn: Turn {
                    run: choice.turn.run,
                    event,
                    values: search_breaks::with_value(values, value),
                },
                under,
                from: x + 1,
            },
        );
        count = search_findings::behind(count, found)?;
        row = value.row;
        run = value.run + 1;
    }
    Ok(count)
}

// Walks through the traces that go on with one move, all its values being chosen, if it is allowed.
#[cycle(walk_walk_after_walk_move_walk_run_walk_values)]
fn walk_move(
    trace: &mut [u8],
    memory: &mut Words,
    plan: &Plan,
    state: &Parts,
    reach: Reach,
    turn: Turn,
) -> Walked
    requires some_move { SomeMove plan.now state.now.course state.now.names.now state.now.classes.now state.now.marks reach.at turn }
    requires room { Room plan.now trace.old memory.old reach }
    ensures finds_move { FindsMove plan.now state.now.course state.now.names.now state.now.classes.now state.now.marks reach turn trace.old trace.new result }
    ensures remembers { Remembers plan.now memory.new }
{
    if !moves::is_allowed(state.classes, &state.marks, turn.run, turn.event) {
        return Ok(0);
    }
    walk_after(trace, memory, plan, state, reach, turn)
}

// Walks through the traces that go on with a move that is allowed. Only here is the memory used: a state whose traces were all walked without a break is looked
// up before its marks are worked on, and stored once it is walked.
#[cycle(walk_walk_after_walk_move_walk_run_walk_values)]
fn walk_after(
    trace: &mut [u8],
    memory: &mut Words,
    plan: &Plan,
    state: &Parts,
    reach: Reach,
    turn: Turn,
) -> Walked
    requires some_step { SomeStep plan.now state.now.course state.now.names.now state.now.classes.now state.now.marks reach.at turn }
    requires room { Room plan.now trace.old memory.old reach }
    ensures finds_step { FindsStep plan.now state.now.course state.now.names.now state.now.classes.now state.now.marks reach turn trace.old trace.new result }
    ensures remembers { Remembers plan.now memory.new }
{
    let done = state.course.done;
    let variables = plan.variables;
    let next = state::advance(done, turn.run);
    let key = search_memory::key_of(variables, next, state.names, reach.depth);
    if let Some(known) = search_memory::look_up(memory, &key) {
        return search_findings::known(reach.left, known);
    }
    let after = moves::perform(
        state.classes,
        state.marks,
        &plan.opened.table,
        turn.run,
        turn.event,
    );
    let bytes = 2 + 2 * turn.values.count;
    let found = walk(
        trace,
        memory,
        plan,
        &Parts {
            course: Course { done: next },
            names: state.names,
            classes: state.classes,
            marks: after,
        },
        Reach {
            left: reach.left,
            at: reach.at + bytes,
            depth: reach.depth,
        },
    );
    if let Ok(count) = found {
        search_memory::keep(memory, &key, count);
        return found;
    }
    search_breaks::write_before(trace, reach.at, turn, found);
    search_findings::after_step(found, bytes)
}
