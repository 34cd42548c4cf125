// The frame of a scenario file: version, budget, and four blocks, each a part of the lent slice; refusals 1 to 3.
#![tactic(auto)]

ghost use Rattle.std.specs.Prelude.{◌≡◌, true, ◌+◌, ◌<◌, ◌≤◌, length, take, drop};
ghost use Rattle.semantics.specs.Frame.{block_length, unversioned, too_long, budget_of, framed, misframed, block_from, block};
ghost use Rattle.rows.specs.Rows.{place_as};
ghost use Rattle.answers.specs.Answers.{checked_as};
ghost use Rattle.frame.specs.Blocks.{block_number};
ghost use Rattle.frame.specs.Framing.{framing_of, IsFramed};

use answers::{Reason, Refusal};

// The limit of a file.
#[derive(Drop)]
pub struct File {}

impl File {
    pub const MOST_BYTES: usize = 4096;

    pub const BLOCKS: usize = 4;
}

// The blocks of a file, in their order.
#[derive(Clone, Copy)]
pub enum BlockKind {
    Terms = 0,
    Roles = 1,
    Runs = 2,
    Knowledge = 3,
}

// Some bytes of a file, and the place where they begin.
#[derive(Clone, Copy)]
pub struct Part<'a> {
    pub start: usize,
    pub bytes: &'a [u8],
    pub ghost low: { start ≤ 65536 },
}

// The length of the block at the front, from its first two bytes.
pub fn length_of(s: &[u8]) -> usize
    requires { 2 ≤ length s.now }
    ensures { (result ≡ block_length s.now) × (result < 65536) }
{
    usize::from(u16::from_be_bytes([s[0], s[1]]))
}

// The bytes of the block at the front, and those after it.
pub fn split(s: &[u8]) -> (&[u8], &[u8])
    requires { 2 + block_length s.now ≤ length s.now }
    ensures { (result.0.now ≡ take (block_length s.now) (drop 2 s.now)) × (result.1.now ≡ drop (2 + block_length s.now) s.now) }
{
    s[2..].split_at(length_of(s))
}

// Whether so many whole blocks stand one after the other, and nothing remains.
fn is_framed(s: &[u8], n: usize) -> bool
    ensures { result ≡ framed n s.now }
{
    if n == 0 {
        return s.is_empty();
    }
    if s.len() < 2 || s.len() < 2 + length_of(s) {
        return false;
    }
    is_framed(split(s).1, n - 1)
}

// Refusal 1: the file is empty, or its version is not 1.
fn unversioned(file: &[u8]) -> Option<usize>
    ensures { result ≡ place_as (unversioned file.now) }
{
    (file.is_empty() || file[0] != 1).then_some(0)
}

// Refusal 2: the file is longer than the limit.
fn too_long(file: &[u8]) -> Option<usize>
    ensures { result ≡ place_as (too_long file.now) }
{
    (File::MOST_BYTES < file.len()).then_some(File::MOST_BYTES)
}

// Refusal 3: the budget or a block runs past the end, or bytes remain after the last block.
fn misframed(file: &[u8]) -> Option<usize>
    ensures { result ≡ place_as (misframed file.now) }
{
    (file.len() < 5 || !is_framed(&file[5..], File::BLOCKS)).then_some(file.len())
}

// Refusals 1 to 3, in this order.
pub fn check(file: &[u8]) -> Result<(), Refusal>
    ensures { result ≡ checked_as (framing_of file.now) }
{
    Reason::Version.at(unversioned(file))?;
    Reason::Size.at(too_long(file))?;
    Reason::Framing.at(misframed(file))
}

// The budget: how many traces of the list may be judged.
pub fn budget(file: &[u8]) -> usize
    requires { 5 ≤ length file.now }
    ensures { (result ≡ budget_of file.now) × (result < 4294967296) }
{
    u32::from_be_bytes([file[1], file[2], file[3], file[4]]) as usize
}

// Where block k begins, counted from the length of the first, and its bytes, in bytes that are framed as n blocks.
fn block_from(s: &[u8], n: usize, k: usize) -> (usize, &[u8])
    requires { (framed n s.now ≡ true) × ((k < n) × (length s.now ≤ 4096)) }
    ensures { ((result.0 ≡ (block_from k 0 s.now).start) × (result.0 ≤ length s.now)) × (result.1.now ≡ (block_from k 0 s.now).bytes) }
{
    let (block, rest) = split(s);
    if k == 0 {
        return (2, block);
    }
    let (start, bytes) = block_from(rest, n - 1, k - 1);
    (2 + block.len() + start, bytes)
}

// A block of a framed file.
pub fn part_of<'a>(file: &'a [u8], kind: BlockKind) -> Part<'a>
    requires { IsFramed file.now }
    ensures { ((result.start ≡ (block (block_number kind) file.now).start) × (result.start ≤ 4096)) × (result.bytes.now ≡ (block (block_number kind) file.now).bytes) }
{
    let (start, bytes) = block_from(&file[5..], File::BLOCKS, kind as usize);
    Part {
        start: 5 + start,
        bytes,
    }
}
