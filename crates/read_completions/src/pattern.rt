// The pattern of a partial choice of values: what is read, and in which state.

ghost use Rattle.std.specs.Prelude.{◌<◌};
ghost use Rattle.variables.specs.Variables.{AreVariables};

use cells::{Classes, Marks, Scope};
use variables::VariableRows;

// A pattern that is read: its run, the classes and marks there, its row, and its variables without a value.
#[derive(Clone, Copy)]
pub struct Pattern<'a> {
    pub scope: Scope<'a>,
    pub classes: &'a Classes,
    pub marks: &'a Marks,
    pub row: usize,
    pub vars: VariableRows,
    pub ghost low: { row < scope.table.rows },
    pub ghost variables: { AreVariables scope.table.bytes.now scope.table.rows vars },
}
