// Access to the rows of a table, three bytes each: kind, left, right; and whether a row is an agent's.
#![tactic(auto)]

ghost use Rattle.std.specs.Prelude.{◌≡◌, true, false, ◌+◌, ◌*◌, ◌<◌, ◌≤◌, length, get_or, eqb, ltb};
ghost use Rattle.semantics.specs.Runs.{atom_at, is_agent, is_trusted};
ghost use Rattle.rows.specs.Rows.{rows_of, second_of, Shape};
ghost use Rattle.rows.specs.Kinds.{number_of, kind_as};

// The kinds of rows, by the byte that says each and in that order: atoms first, then what is made of other rows.
#[derive(Clone, Copy, PartialEq, Eq, PartialOrd, Ord)]
pub enum Kind {
    // agents
    Trusted = 1,
    Untrusted = 2,
    // constants, which stand for themselves
    Global = 3,
    Intruder = 4,
    // what a run gives a value
    Role = 5,
    Variable = 6,
    Local = 7,
    // keys
    PublicKey = 8,
    SecretKey = 9,
    SharedKey = 10,
    // compound terms
    Pair = 11,
    Encrypted = 12,
}

impl Kind {
    // The kind that a byte says, if it says one.
    // stays: each caller has its own answer for another byte, and `TryFrom` would add an error that none reads
    pub fn of(byte: u8) -> Option<Kind>
        ensures { result ≡ kind_as byte }
    {
        match byte {
            1 => Some(Kind::Trusted),
            2 => Some(Kind::Untrusted),
            3 => Some(Kind::Global),
            4 => Some(Kind::Intruder),
            5 => Some(Kind::Role),
            6 => Some(Kind::Variable),
            7 => Some(Kind::Local),
            8 => Some(Kind::PublicKey),
            9 => Some(Kind::SecretKey),
            10 => Some(Kind::SharedKey),
            11 => Some(Kind::Pair),
            12 => Some(Kind::Encrypted),
            _ => None,
        }
    }

    // Whether it is an agent's.
    pub fn is_agent(self) -> bool
        ensures { (result ≡ true → number_of self ≤ 2) × (result ≡ false → 2 < number_of self) }
    {
        self <= Kind::Untrusted
    }

    // Whether a row of the kind refers to other rows.
    pub fn is_made(self) -> bool
        ensures { (result ≡ true → 8 ≤ number_of self) × (result ≡ false → number_of self < 8) }
    {
        Kind::PublicKey <= self
    }

    // Whether it is a pair or an encryption.
    pub fn is_compound(self) -> bool
        ensures { (result ≡ true → 11 ≤ number_of self) × (result ≡ false → number_of self < 11) }
    {
        Kind::Pair <= self
    }
}

// The byte of a row that says its kind, whether or not it says one.
pub fn kind_byte(t: &[u8], r: usize) -> usize
    requires { 3 * r + 2 < length t.now }
    ensures { (result ≡ get_or t.now (3 * r) 0) × (result < 256) }
{
    usize::from(t[3 * r])
}

// The kind of a row, if its byte says one.
pub fn kind_of(t: &[u8], r: usize) -> Option<Kind>
    requires { 3 * r + 2 < length t.now }
    ensures { result ≡ kind_as (get_or t.now (3 * r) 0) }
{
    Kind::of(kind_byte(t, r) as u8)
}

// The left byte of a row.
pub fn left_of(t: &[u8], r: usize) -> usize
    requires { 3 * r + 2 < length t.now }
    ensures { (result ≡ get_or t.now (3 * r + 1) 0) × (result < 256) }
{
    usize::from(t[3 * r + 1])
}

// The right byte of a row.
pub fn right_of(t: &[u8], r: usize) -> usize
    requires { 3 * r + 2 < length t.now }
    ensures { (result ≡ get_or t.now (3 * r + 2) 0) × (result < 256) }
{
    usize::from(t[3 * r + 2])
}

// The table of a scenario: the bytes of its rows, three for each, how many rows there are, and how many runs there are, none at role level.
#[derive(Clone, Copy)]
pub struct Table<'a> {
    pub bytes: &'a [u8],
    pub rows: usize,
    pub runs: usize,
    pub ghost shape: { Shape bytes.now rows runs },
}

impl<'a> Table<'a> {
    // The table of some bytes that are one.
    pub fn new(bytes: &'a [u8], rows: usize, runs: usize) -> Table<'a>
        requires { Shape bytes.now rows runs }
        ensures { (result.bytes.now ≡ bytes.now) × ((result.rows ≡ rows) × (result.runs ≡ runs)) }
    {
        Table { bytes, rows, runs }
    }

    // The table at role level, where there are no runs.
    pub fn at_role_level(&self) -> Table<'a>
        ensures { (result.bytes.now ≡ self.now.bytes.now) × ((result.rows ≡ self.now.rows) × (result.runs ≡ 0)) }
    {
        Table {
            bytes: self.bytes,
            rows: self.rows,
            runs: 0,
        }
    }

    // The kind of a row.
    pub fn kind_of(&self, r: usize) -> Kind
        requires { r < self.now.rows }
        ensures { number_of result ≡ get_or self.now.bytes.now (3 * r) 0 }
    {
        kind_of(self.bytes, r).unwrap()
    }

    // Whether a row is of a kind: by its byte alone, since this is asked of row after row.
    pub fn has_kind(&self, r: usize, kind: Kind) -> bool
        requires { r < self.now.rows }
        ensures { result ≡ eqb (get_or self.now.bytes.now (3 * r) 0) (number_of kind) }
    {
        self.bytes[3 * r] == kind as u8
    }

    // Whether a row's kind comes before another, in the order of their numbers; by its byte alone too.
    pub fn is_before(&self, r: usize, kind: Kind) -> bool
        requires { r < self.now.rows }
        ensures { result ≡ ltb (get_or self.now.bytes.now (3 * r) 0) (number_of kind) }
    {
        self.bytes[3 * r] < kind as u8
    }

    // The left byte of a row.
    pub fn left_of(&self, r: usize) -> usize
        requires { r < self.now.rows }
        ensures { (result ≡ get_or self.now.bytes.now (3 * r + 1) 0) × (result < 256) }
    {
        left_of(self.bytes, r)
    }

    // The right byte of a row.
    pub fn right_of(&self, r: usize) -> usize
        requires { r < self.now.rows }
        ensures { (result ≡ get_or self.now.bytes.now (3 * r + 2) 0) × (result < 256) }
    {
        right_of(self.bytes, r)
    }

    // The second part of a row that is made of others; a key of one agent has that agent twice.
    pub fn second_of(&self, r: usize) -> usize
        requires { r < self.now.rows }
        ensures { (result ≡ second_of self.now.bytes.now r) × (result < 256) }
    {
        if self.is_before(r, Kind::SharedKey) {
            self.left_of(r)
        } else {
            self.right_of(r)
        }
    }

    // Whether a row is an agent's.
    pub fn is_agent(&self, r: usize) -> bool
        ensures { result ≡ is_agent (atom_at (rows_of self.now.bytes.now) r) }
    {
        r < self.rows && self.kind_of(r).is_agent()
    }

    // Whether a row is a trusted agent's.
    pub fn is_trusted(&self, r: usize) -> bool
        ensures { result ≡ is_trusted (atom_at (rows_of self.now.bytes.now) r) }
    {
        r < self.rows && self.kind_of(r) == Kind::Trusted
    }
}
