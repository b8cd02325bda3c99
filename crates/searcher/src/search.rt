// The search over lists of call rows. For our own crates only: a caller has to see what it goes by, and that the record it begins
// with fits. Inside, a result: the number of lists tried so far, none of which breaks the rule, or the verdict that ends the search.
// Clauses, and no types: `Fits` is of a record and the file's fields together, `Sound` of a cache and a search, and a bound of
// 8 is of what each function has at hand, a length, the rows and those left, or a place.
ghost use Rattle.std.specs.Prelude.{◌≡◌, Bool, List, [], ◌∷◌, ◌++◌, map, ℕ, ◌+◌, ◌-◌, ◌<◌, ◌≤◌, length, replicate, Err};
ghost use Rattle.rules.specs.Lists.{lists_of, lists_to};
ghost use Rattle.rules.specs.Judging.{Ruling, held, ruled_on, judged, judged_of};
ghost use Rattle.machine.specs.Calls.{Fits};
ghost use Rattle.searcher.specs.Searching.{continued, going};
ghost use Rattle.searcher.specs.Plans.{PlannedBy, breaks_in, ruling_after, Sound};

use crate::Position;
use crate::cache::{Entry, Key, PAIRS, Pair, find, is_kept, pair_for, store};
use crate::plan::Search;
use crate::standing::after;
use machine::outcomes::is_completed;
use rules::{Judged, Verdict};
use runner::steps::call_fitting;

// A verdict that shows no list.
#[tactic(auto, unfolding(rules::specs::Judging::judged, rules::specs::Basics::padded))]
pub fn unshown(verdict: Verdict) -> Judged
    ensures { result ≡ judged verdict [] }
{
    Judged {
        verdict,
        rows: [0; 8],
    }
}

// What is answered where all lists were tried, or one of them or the bound ended the search.
fn answered(tried: Result<u32, Judged>) -> Judged
    ensures { (v : Ruling) → tried ≡ going v → result ≡ judged_of v }
{
    match tried {
        Ok(n) => unshown(Verdict::Held(n)),
        Err(judged) => judged,
    }
}

// The end of a list of this length. The bound is tested before the list counts as tried.
fn ended(broken: bool, length: u8, tried: u32, bound: u32) -> Result<u32, Judged>
    requires { length ≤ 8 }
    ensures { (p : List ℕ → Bool) → broken ≡ p [] →
        result ≡ going (continued tried (replicate length 0) (ruled_on (bound - tried) p ([] ∷ []))) }
{
    if broken && tried < bound {
        return Err(unshown(Verdict::Broken(tried + 1, length)));
    }
    all_ended(1, tried, bound)
}

// The end of so many lists at once, of which none breaks the rule. The bound may fall among them.
fn all_ended(number: u32, tried: u32, bound: u32) -> Result<u32, Judged>
    requires { number ≡ 0 → ⊥ }
    ensures { (p : List ℕ → Bool) (ls : List (List ℕ)) (l : List ℕ) → ruled_on number p ls ≡ held number →
        result ≡ going (continued tried l (ruled_on (bound - tried) p ls)) }
{
    if bound <= tried {
        return Err(unshown(Verdict::Spent(tried)));
    }
    if bound - tried < number {
        return Err(unshown(Verdict::Spent(bound)));
    }
    Ok(tried + number)
}

// Puts a row at its position in the list that a verdict shows, where a zero stood.
fn with_row(judged: Judged, at: u8, row: u8) -> Judged
    requires { at < 8 }
    ensures { (n : ℕ) (v : Ruling) → going (continued n (replicate (at + 1) 0) v) ≡ Err judged →
        going (continued n (replicate at 0 ++ (row ∷ [])) v) ≡ Err result }
{
    let mut shown = judged;
    if let Verdict::Broken(_, _) = judged.verdict {
        shown.rows[usize::from(at)] = row;
    }
    shown
}

impl Search<'_> {
    // Goes on by the call of one row more. A refused call leaves how the rule stands.
    fn call(&self, position: &mut Position, row: usize)
        requires { PlannedBy self.now × (row < length self.now.rows.now) × Fits self.now.prepared.now.fields position.old.state }
        ensures fits { Fits self.now.prepared.now.fields position.new.state }
        ensures l_after { (g : PlannedBy self.now) (l : List ℕ) → breaks_in g position.new l ≡ breaks_in g position.old (row ∷ l) }
    {
        let prepared = self.prepared;
        let rows = self.rows;
        let call = &rows[row];
        let answer = call_fitting(prepared, &mut position.state, call);
        if is_completed(answer) {
            let file = prepared.steps.file;
            position.status = after(file, self.rule, position.status, call.name, &position.state);
        }
    }

    // Tries the key's lists, each behind the `at` rows that led to its position, after `tried` others. Those rows are put in where a
    // list breaks the rule. No struct of the arguments: key, `at` and `tried` are others at each call, and it would be made anew.
    #[cycle(extend)]
    fn extend(&self, key: &Key, cache: &mut [Pair], at: u8, tried: u32) -> Result<u32, Judged>
        requires { PlannedBy self.now × Fits self.now.prepared.now.fields key.now.position.state × (at + key.now.left ≤ 8)
            × Sound self.now cache.old }
        ensures sound { Sound self.now cache.new }
        ensures value { (g : PlannedBy self.now) →
            result ≡ going (ruling_after g self.now.bound key.now.position tried (replicate at 0) (lists_of (length self.now.rows.now) key.now.left)) }
    {
        if key.left == 0 {
            return ended(key.position.status.broken, at, tried, self.bound);
        }
        let Some(pair) = pair_for(self.rows.len(), key) else {
            return self.extend_each(key, cache, at, tried);
        };
        if let Some(number) = find(cache, pair, key) {
            return all_ended(number, tried, self.bound);
        }
        let n = self.extend_each(key, cache, at, tried)?;
        let entry = Entry {
            number: n - tried,
            key: *key,
        };
        store(cache, pair, entry);
        Ok(n)
    }

    // The same where rows are left, row by row; the cache is asked only from the next row on.
    #[cycle(extend)]
    fn extend_each(&self, key: &Key, cache: &mut [Pair], at: u8, tried: u32) -> Result<u32, Judged>
        requires { PlannedBy self.now × Fits self.now.prepared.now.fields key.now.position.state × (0 < key.now.left)
            × (at + key.now.left ≤ 8) × Sound self.now cache.old }
        ensures sound { Sound self.now cache.new }
        ensures value { (g : PlannedBy self.now) →
            result ≡ going (ruling_after g self.now.bound key.now.position tried (replicate at 0) (lists_of (length self.now.rows.now) key.now.left)) }
    {
        let mut n = tried;
        for row in 0..self.rows.len() {
            n = self.extend_by(key, cache, at, n, row)?;
        }
        Ok(n)
    }

    // Tries those of the key's lists that begin with this row.
    #[cycle(extend)]
    fn extend_by(
        &self,
        key: &Key,
        cache: &mut [Pair],
        at: u8,
        tried: u32,
        row: usize,
    ) -> Result<u32, Judged>
        requires { PlannedBy self.now × Fits self.now.prepared.now.fields key.now.position.state × (row < length self.now.rows.now)
            × (0 < key.now.left) × (at + key.now.left ≤ 8) × Sound self.now cache.old }
        ensures sound { Sound self.now cache.new }
        ensures value { (g : PlannedBy self.now) →
            result ≡ going (ruling_after g self.now.bound key.now.position tried (replicate at 0)
            (map (λ l. row ∷ l) (lists_of (length self.now.rows.now) (key.now.left - 1)))) }
    {
        let mut next = Key {
            left: key.left - 1,
            position: key.position,
        };
        self.call(&mut next.position, row);
        self.extend(&next, cache, at + 1, tried)
            .map_err(|judged| with_row(judged, at, row as u8))
    }

    // Tries the lists by length, up to the depth, from the position that the start led to. Its loop is `extend_each`'s, over lengths
    // in place of rows, and with a key made at each.
    fn by_length(&self, fresh: &Position, depth: u8, cache: &mut [Pair]) -> Result<u32, Judged>
        requires { PlannedBy self.now × Fits self.now.prepared.now.fields fresh.now.state × (depth ≤ 8) × Sound self.now cache.old }
        ensures { (g : PlannedBy self.now) →
            result ≡ going (ruled_on self.now.bound (breaks_in g fresh.now) (lists_to (length self.now.rows.now) depth)) }
    {
        let mut n = 0;
        for length in 0..=depth {
            let key = Key {
                left: length,
                position: *fresh,
            };
            n = self.extend(&key, cache, 0, n)?;
        }
        Ok(n)
    }

    // The same with a cache of its own, in which every entry is empty. It is not inlined, so that where nothing is kept nothing is
    // cleared.
    #[inline(never)]
    fn with_cache(&self, fresh: &Position, depth: u8) -> Result<u32, Judged>
        requires { PlannedBy self.now × Fits self.now.prepared.now.fields fresh.now.state × (depth ≤ 8) }
        ensures { (g : PlannedBy self.now) →
            result ≡ going (ruled_on self.now.bound (breaks_in g fresh.now) (lists_to (length self.now.rows.now) depth)) }
    {
        let mut cache = [[Entry::EMPTY; 2]; PAIRS];
        self.by_length(fresh, depth, &mut cache)
    }

    // The same; where nothing would be kept the cache has no pairs.
    pub fn search(&self, fresh: &Position, depth: u8) -> Judged
        requires { PlannedBy self.now × Fits self.now.prepared.now.fields fresh.now.state × (depth ≤ 8) }
        ensures { (g : PlannedBy self.now) →
            result ≡ judged_of (ruled_on self.now.bound (breaks_in g fresh.now) (lists_to (length self.now.rows.now) depth)) }
    {
        if is_kept(self.rows.len(), depth) {
            return answered(self.with_cache(fresh, depth));
        }
        answered(self.by_length(fresh, depth, &mut []))
    }
}
