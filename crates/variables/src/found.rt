// Rows of variables: at most 8, each a row that a table can have.
ghost use Rattle.std.specs.Prelude.{ℕ, ◌<◌, ◌≤◌, get_or};

// Rows of variables, and how many they are; unused places hold row 0.
#[derive(Clone, Copy)]
pub struct VariableRows {
    pub rows: [usize; 8],
    pub count: usize,
    pub ghost few: { count ≤ 8 },
    pub ghost low: { (j : ℕ) → j < count → get_or rows j 0 < 96 },
}
