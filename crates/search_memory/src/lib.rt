// The memory of Search: states whose traces were all walked without a break, each with how many there are.
#![tactic(auto)]

ghost use Rattle.std.specs.Prelude.{◌≡◌, true, ℕ, IfSome, ◌+◌, ◌*◌, ◌/◌, ◌%◌, ◌<◌, ◌≤◌, length, get_or};
ghost use Rattle.search_memory.specs.Memory.{slot_count, key_size, count_end, Variables, name_of, IsKey, HoldsKey, count_at, LookedUp, Kept, Written};

use cells::{Names, cell};
use rows::Table;

// The words of the memory: sets of slots, in each slot the words of a key and two for the count.
#[derive(Drop)]
pub struct Memory {}

impl Memory {
    // how many words the memory has
    pub const WORDS: usize = 215040;
    // how many sets of slots there are
    const SETS: usize = 1344;
    // the slots of a set
    const WAYS: usize = 4;
    // the words of a slot
    // stays: an edit shows that slots which overlap are refused, and an array of slots cannot overlap
    const SLOT: usize = 40;
    // the words of a key: positions, moves, one that is not used, and names
    // stays: the memory holds a key as these words, and they are hashed and compared as such
    const KEY: usize = 38;
    // where the number of moves stands in a key
    const DEPTH: usize = 4;
    // where the names of the first run begin
    const NAMES: usize = 6;
    // where the first half of the count stands in a slot
    const LOW: usize = 38;
    // where the second half stands
    const HIGH: usize = 39;
    // the first half is below this
    const HALF: usize = 65536;
    // what a hash is multiplied by for each pair of a key's words
    const FACTOR: u64 = 1640531527;
    // the low end of the product is dropped
    const DROPPED: u64 = 65536;
    // and the middle is kept
    const KEPT: u64 = 4294967296;
}

// All words of the memory.
pub type Words = [u16; Memory::WORDS];

// The rows of a table's variables; unused places hold row 0.
pub fn variable_rows(t: &Table) -> [usize; 8]
    ensures { Variables t.now.bytes.now t.now.rows result }
{
    let every = [true; 96];
    let found = variables::variable_rows(t, &every);
    found.rows
}

// Writes the names of run k, from 0, at the variables' rows into a key.
fn fill_names(key: &mut [u16; 38], variables: &[usize; 8], names: &Names, k: usize)
    requires { (k < 4) × ((i : ℕ) → i < 8 → get_or variables.now i 0 < 96) }
    ensures { Written key.old key.new (6 + 8 * k) 8 (name_of variables.now names.now k) }
{
    for (i, x) in variables.iter().enumerate() {
        key[Memory::NAMES + 8 * k + i] = names[cell(*x, k + 1)];
    }
}

// The key of a state.
pub fn key_of(variables: [usize; 8], done: [usize; 4], names: &Names, depth: usize) -> [u16; 38]
    requires { ((i : ℕ) → i < 8 → get_or variables i 0 < 96) × (((k : ℕ) → k < 4 → get_or done k 0 < 65536) × (depth < 65536)) }
    ensures { IsKey variables done names.now depth result }
{
    let mut key = [0; 38];
    key[Memory::DEPTH] = depth as u16;
    for k in 0..4 {
        key[k] = done[k] as u16;
        fill_names(&mut key, &variables, names, k);
    }
    key
}

// Two words as one number.
fn joined(low: u16, high: u16) -> usize
    ensures { (result ≡ low + 65536 * high) × (result < count_end) }
{
    usize::from(low) + Memory::HALF * usize::from(high)
}

// The hash of a key, mixed by multiplication, two words at a time.
fn hash(key: &[u16; 38]) -> u64
    ensures { result < count_end }
{
    let mut h = 0;
    for pair in key.chunks_exact(2) {
        h = (h + joined(pair[0], pair[1]) as u64) * Memory::FACTOR / Memory::DROPPED % Memory::KEPT;
    }
    h
}

// The first slot of the set in which a key may stand.
fn first_slot(key: &[u16; 38]) -> usize
    ensures { result + 4 ≤ slot_count }
{
    hash(key) as usize % Memory::SETS * Memory::WAYS
}

// Whether a slot's key is the given one, in every word.
fn holds_key(memory: &Words, slot: usize, key: &[u16; 38]) -> bool
    requires { slot < slot_count }
    ensures { result ≡ true → HoldsKey memory.now slot key.now }
{
    let at = Memory::SLOT * slot;
    memory[at..at + Memory::KEY] == key[..]
}

// The count of a slot.
fn count_at(memory: &Words, slot: usize) -> usize
    requires { slot < slot_count }
    ensures { (result ≡ count_at memory.now slot) × (result < count_end) }
{
    let at = Memory::SLOT * slot;
    joined(memory[at + Memory::LOW], memory[at + Memory::HIGH])
}

// The slot of a key in the set that begins with slot `first`, if it has one.
fn slot_of(memory: &Words, first: usize, key: &[u16; 38]) -> Option<usize>
    requires { first + 4 ≤ slot_count }
    ensures { IfSome result (λ slot. (slot < slot_count) × HoldsKey memory.now slot key.now) }
{
    (first..first + Memory::WAYS).find(|slot| holds_key(memory, *slot, key))
}

// The count that the memory has for a key, if it has one.
pub fn look_up(memory: &Words, key: &[u16; 38]) -> Option<usize>
    ensures { IfSome result (λ count. (0 < count) × LookedUp memory.now key.now count) }
{
    let slot = slot_of(memory, first_slot(key), key)?;
    let count = count_at(memory, slot);
    (0 < count).then_some(count)
}

// The slot to which an entry goes: the one of the same key, or else the first of the smallest count.
fn slot_for(memory: &Words, key: &[u16; 38]) -> usize
    ensures { result < slot_count }
{
    let first = first_slot(key);
    if let Some(slot) = slot_of(memory, first, key) {
        return slot;
    }
    (first..first + Memory::WAYS)
        .min_by_key(|slot| count_at(memory, *slot))
        .unwrap_or(first)
}

// Writes a key from a place on.
fn write_key(memory: &mut Words, at: usize, key: &[u16; 38])
    requires { at + key_size ≤ length memory.old }
    ensures { Written memory.old memory.new at key_size (λ i. get_or key.now i 0) }
{
    memory[at..at + Memory::KEY].copy_from_slice(key);
}

// The two halves of a count.
fn halves(count: usize) -> (u16, u16)
    requires { count < count_end }
    ensures { (result.0 ≡ count % 65536) × (result.1 ≡ count / 65536) }
{
    ((count % Memory::HALF) as u16, (count / Memory::HALF) as u16)
}

// Stores the count of a key, over the entry of the same key or else over one of the smallest count. A slot with the count 0 holds nothing, since the memory is
// cleared to zeros; so a count of 0 is not stored.
pub fn keep(memory: &mut Words, key: &[u16; 38], count: usize)
    requires { count < count_end }
    ensures { Kept memory.old memory.new key.now count }
{
    if count == 0 {
        return;
    }
    let at = Memory::SLOT * slot_for(memory, key);
    write_key(memory, at, key);
    let (low, high) = halves(count);
    memory[at + Memory::LOW] = low;
    memory[at + Memory::HIGH] = high;
}
