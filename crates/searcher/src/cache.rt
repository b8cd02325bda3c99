// The cache of a search: the positions from which it has tried all lists of so many rows and found none that breaks the rule, each
// with the number of those lists. For the search alone: that its entries are sound is a clause of the search.
ghost use Rattle.std.specs.Prelude.{◌<◌, IfSome};
ghost use Rattle.searcher.specs.Caching.{Cached, StoredOrNot};

use crate::{Position, Status};
use rules::State;

// Which lists an entry is for: all of so many rows from a position on.
#[derive(Clone, Copy, PartialEq, Eq)]
pub struct Key {
    pub left: u8,
    pub position: Position,
}

// The number of those lists, none of which breaks the rule. A number of lists is never 0, so 0 marks an empty entry; an option would
// say so once more.
#[derive(Clone, Copy)]
pub struct Entry {
    pub number: u32,
    pub key: Key,
}

impl Entry {
    pub const EMPTY: Entry = Entry {
        number: 0,
        key: Key {
            left: 0,
            position: Position {
                state: State::ZERO,
                status: Status {
                    broken: false,
                    seen: false,
                },
            },
        },
    };
}

// Two entries to which a hash leads: what is kept of fewer lists makes room. The cache is so many pairs, fixed memory, as the product
// uses no heap.
pub type Pair = [Entry; 2];

pub const PAIRS: usize = 128;

fn folded(a: u32, b: u32) -> u32 {
    a ^ b.rotate_left(16)
}

fn mixed(h: u64, a: u32, b: u32, c: u32, d: u32) -> u64 {
    let four = u64::from(folded(a, b)) * 0x6c07_8965 + u64::from(folded(c, d)) * 0x5bd1_e995;
    h.rotate_left(11) ^ four
}

// The pair of a key. Any would do, so the contract says no more: the hash only spreads keys over the pairs. It is written out, as a loop
// would need an array of the 28 words to be made first.
fn pair_of(key: &Key) -> usize
    ensures { result < 128 }
{
    let s = &key.position.state;
    let status = 2 * u32::from(key.position.status.broken) + u32::from(key.position.status.seen);
    let v = &s.variables;
    let b = &s.balances;
    let mut h = mixed(0, u32::from(key.left), status, s.state, s.own);
    h = mixed(h, v[0], v[1], v[2], v[3]);
    h = mixed(h, v[4], v[5], v[6], v[7]);
    h = mixed(h, v[8], v[9], v[10], v[11]);
    h = mixed(h, v[12], v[13], v[14], v[15]);
    h = mixed(h, b[0], b[1], b[2], b[3]);
    h = mixed(h, b[4], b[5], b[6], b[7]);
    let x = (h ^ (h >> 32)) % 0x1_0000_0000;
    (x * 0x9e37_79b1 / 0x100_0000) as usize % PAIRS
}

// Whether the lists of so many rows, out of `count`, are kept: where there are 8 or more of one row, or 16 or more of several.
// Looking up fewer costs too much of the time of trying them, where no position is met again. Any answer would do, so there is no
// contract. `left` is a length and no code.
pub fn is_kept(count: usize, left: u8) -> bool {
    match left {
        0 => false,
        1 => 8 <= count,
        2 => 4 <= count,
        3 => 3 <= count,
        _ => 2 <= count,
    }
}

// The pair for a key's lists, out of `count` rows, if they are kept.
pub fn pair_for(count: usize, key: &Key) -> Option<usize>
    ensures { IfSome result (λ pair. pair < 128) }
{
    is_kept(count, key.left).then(|| pair_of(key))
}

// The number in a pair's entry for a key, if the cache has it.
pub fn find(cache: &[Pair], pair: usize, key: &Key) -> Option<u32>
    ensures found { IfSome result (λ n. Cached cache.now (record { number = n; key = key.now })) }
    ensures some { IfSome result (λ n. 0 < n) }
{
    cache
        .get(pair)?
        .iter()
        .find(|entry| entry.number != 0 && entry.key == *key)
        .map(|entry| entry.number)
}

// Writes an entry into a pair, over the one for fewer lists; nothing where the cache has no such pair. Tried with `get_mut`, and the
// proof did not close: its contract does not say what the slice ends as.
pub fn store(cache: &mut [Pair], pair: usize, entry: Entry)
    ensures { StoredOrNot cache.old cache.new entry }
{
    if pair < cache.len() {
        let [first, second] = &cache[pair];
        let fewer = usize::from(second.number < first.number);
        cache[pair][fewer] = entry;
    }
}
