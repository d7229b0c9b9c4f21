//! Sets of nodes, as bits of words.

ghost use Rattle.std.specs.Prelude.{◌≡◌, ◌≢◌, ℕ, ◌+◌, ◌*◌, ◌/◌, ◌%◌, ◌<◌, ◌≤◌, ◌&&◌, ◌||◌, ◌==◌, true, false, Bool, not, length, slice_index, nat_lt, bit_and};
ghost use Rattle.vga_grid.specs.declared.limits.TheConstants.{MAX_NODES};
ghost use Rattle.vga_grid.specs.Rows.{width, bit_of};
ghost use Rattle.vga_grid.specs.Sets.{is_set, size};
ghost use Rattle.step_depth.specs.Sets.{IsPicked};

/// The bits of `a` that aren't in `b`.
pub(crate) fn without(a: u64, b: u64) -> u64
    ensures { (i : ℕ) → i < 64 → is_set result i ≡ (is_set a i && not (is_set b i)) }
{
    a & !b
}

/// The bits of two words.
fn either(a: u64, b: u64) -> u64
    ensures { (i : ℕ) → is_set result i ≡ (is_set a i || is_set b i) }
{
    a | b
}

/// The word with bit `b` cleared.
pub(crate) fn cleared(word: u64, b: u32) -> u64
    requires { b < 64 }
    ensures bits { (i : ℕ) → i < 64 → is_set result i ≡ (is_set word i && not (i == b)) }
    ensures less { is_set word b ≡ true → result < word }
{
    word & !(1 << b)
}

/// The word's lowest bit.
pub(crate) fn lowest(word: u64) -> u32
    requires { word ≢ 0 }
    ensures small { result < 64 }
    ensures here { is_set word result ≡ true }
{
    word.trailing_zeros()
}

/// A word whose lowest `count` bits are set.
fn low_ones(count: usize) -> u64
    requires { count < 64 }
    ensures { (i : ℕ) → i < 64 → is_set result i ≡ nat_lt i count }
{
    (1 << count) - 1
}

/// Whether `v` is in the set.
pub(crate) fn has(set: &[u64], v: usize) -> bool
    requires { v / 64 < length set.now }
    ensures { result ≡ bit_of set.now v }
{
    (set[v / 64] >> (v % 64)) & 1 == 1
}

/// Takes `v` out of the set.
pub(crate) fn remove(set: &mut [u64], v: usize)
    requires { v / 64 < length set.old }
    ensures { (w : ℕ) → bit_of set.new w ≡ (bit_of set.old w && not (w == v)) }
{
    set[v / 64] = cleared(set[v / 64], (v % 64) as u32);
}

/// Takes one set out of another.
pub(crate) fn take_out(set: &mut [u64], other: &[u64])
    requires { length other.now ≡ length set.old }
    ensures { (v : ℕ) → bit_of set.new v ≡ (bit_of set.old v && not (bit_of other.now v)) }
{
    for k in 0..set.len() {
        set[k] = without(set[k], other[k]);
    }
}

/// Takes four sets out of another.
pub(crate) fn take_four_out(set: &mut [u64], a: &[u64], b: &[u64], c: &[u64], d: &[u64])
    requires a { length a.now ≡ length set.old }
    requires b { length b.now ≡ length set.old }
    requires c { length c.now ≡ length set.old }
    requires d { length d.now ≡ length set.old }
    ensures { (v : ℕ) → bit_of set.new v ≡ (bit_of set.old v && not ((bit_of a.now v || bit_of b.now v) || (bit_of c.now v || bit_of d.now v))) }
{
    for k in 0..set.len() {
        set[k] = without(set[k], either(either(a[k], b[k]), either(c[k], d[k])));
    }
}

/// Makes the set what is in `one` and not in `other`.
pub(crate) fn assign_without(set: &mut [u64], one: &[u64], other: &[u64])
    requires one { length one.now ≡ length set.old }
    requires other { length other.now ≡ length set.old }
    ensures { (v : ℕ) → bit_of set.new v ≡ (bit_of one.now v && not (bit_of other.now v)) }
{
    for k in 0..set.len() {
        set[k] = without(one[k], other[k]);
    }
}

/// The word `k` of the set of all nodes below `n`.
fn all_below(n: usize, k: usize) -> u64
    requires { k ≤ 256 }
    ensures { (v : ℕ) → v / 64 ≡ k → is_set result (v % 64) ≡ nat_lt v n }
{
    if 64 * k + 64 <= n {
        u64::MAX
    } else {
        low_ones(n.saturating_sub(64 * k))
    }
}

/// Makes the set all others below `n`.
pub(crate) fn complement(set: &mut [u64], n: usize)
    requires sized { length set.old ≡ width n }
    requires at_most { n ≤ MAX_NODES }
    ensures { (v : ℕ) → bit_of set.new v ≡ (nat_lt v n && not (bit_of set.old v)) }
{
    for k in 0..set.len() {
        set[k] = without(all_below(n, k), set[k]);
    }
}

/// How many nodes the set has.
pub(crate) fn count(set: &[u64]) -> u32
    requires { length set.now ≤ 256 }
    ensures value { result ≡ size set.now }
    ensures few { result ≤ 64 * length set.now }
{
    let mut sum = 0u32;
    for k in 0..set.len() {
        sum += set[k].count_ones();
    }
    sum
}

/// Whether four words are 0.
fn are_four_empty(set: &[u64], k: usize) -> bool
    requires { k + 4 ≤ length set.now }
    ensures { result ≡ true → (j : ℕ) → k ≤ j → j < k + 4 → slice_index set.now j ≡ 0 }
{
    (set[k] | set[k + 1]) | (set[k + 2] | set[k + 3]) == 0
}

/// The first word from `from` on that isn't 0, or how many words there are.
pub(crate) fn next_word(set: &[u64], from: usize) -> usize
    requires small { length set.now ≤ 256 }
    requires from { from ≤ length set.now }
    ensures low { from ≤ result }
    ensures high { result ≤ length set.now }
    ensures skipped { (k : ℕ) → from ≤ k → k < result → slice_index set.now k ≡ 0 }
{
    let mut k = from;
    while k + 4 <= set.len() && are_four_empty(set, k) {
        k += 4;
    }
    while k < set.len() && set[k] == 0 {
        k += 1;
    }
    k
}

/// The bits that four words share.
fn four_meet(a: &[u64], b: &[u64], k: usize) -> u64
    requires a { k + 4 ≤ length a.now }
    requires b { k + 4 ≤ length b.now }
    ensures none { result ≡ 0 → (j : ℕ) → k ≤ j → j < k + 4 → bit_and (slice_index a.now j) (slice_index b.now j) ≡ 0 }
    ensures some { result ≢ 0 → (j : ℕ) × (bit_and (slice_index a.now j) (slice_index b.now j) ≢ 0) }
{
    ((a[k] & b[k]) | (a[k + 1] & b[k + 1])) | ((a[k + 2] & b[k + 2]) | (a[k + 3] & b[k + 3]))
}

/// Whether eight words share a bit.
fn eight_meet(a: &[u64], b: &[u64], k: usize) -> bool
    requires a { k + 8 ≤ length a.now }
    requires b { k + 8 ≤ length b.now }
    ensures none { result ≡ false → (j : ℕ) → k ≤ j → j < k + 8 → bit_and (slice_index a.now j) (slice_index b.now j) ≡ 0 }
    ensures some { result ≡ true → (j : ℕ) × (bit_and (slice_index a.now j) (slice_index b.now j) ≢ 0) }
{
    four_meet(a, b, k) | four_meet(a, b, k + 4) != 0
}

/// Whether two sets have a common word from `from` on.
fn meet_from(a: &[u64], b: &[u64], from: usize) -> bool
    requires { length b.now ≡ length a.now }
    ensures none { result ≡ false → (j : ℕ) → from ≤ j → j < length a.now → bit_and (slice_index a.now j) (slice_index b.now j) ≡ 0 }
    ensures some { result ≡ true → (j : ℕ) × (bit_and (slice_index a.now j) (slice_index b.now j) ≢ 0) }
{
    for j in from..a.len() {
        if a[j] & b[j] != 0 {
            return true;
        }
    }
    false
}

/// Whether two sets share a word.
fn meet_words(a: &[u64], b: &[u64]) -> bool
    requires same { length b.now ≡ length a.now }
    requires small { length a.now ≤ 256 }
    ensures none { result ≡ false → (j : ℕ) → j < length a.now → bit_and (slice_index a.now j) (slice_index b.now j) ≡ 0 }
    ensures some { result ≡ true → (j : ℕ) × (bit_and (slice_index a.now j) (slice_index b.now j) ≢ 0) }
{
    let mut k = 0;
    while k + 8 <= a.len() {
        if eight_meet(a, b, k) {
            return true;
        }
        k += 8;
    }
    meet_from(a, b, k)
}

/// Whether two sets share a word; the words about `near` are looked at first.
fn meet_near(a: &[u64], b: &[u64], near: usize) -> bool
    requires same { length b.now ≡ length a.now }
    requires small { length a.now ≤ 256 }
    requires near { near < length a.now }
    ensures none { result ≡ false → (j : ℕ) → j < length a.now → bit_and (slice_index a.now j) (slice_index b.now j) ≡ 0 }
    ensures some { result ≡ true → (j : ℕ) × (bit_and (slice_index a.now j) (slice_index b.now j) ≢ 0) }
{
    let at = near / 8 * 8;
    if at + 8 <= a.len() {
        if eight_meet(a, b, at) {
            return true;
        }
    }
    meet_words(a, b)
}

/// Whether two sets have a common node. Where they have, it is most often found near word `near`, and soonest there.
pub(crate) fn meet(a: &[u64], b: &[u64], near: usize) -> bool
    requires same { length b.now ≡ length a.now }
    requires small { length a.now ≤ 256 }
    requires near { near < length a.now }
    ensures none { result ≡ false → (v : ℕ) → bit_of a.now v ≡ true → bit_of b.now v ≡ false }
    ensures some { result ≡ true → (v : ℕ) × (bit_of a.now v ≡ true) × (bit_of b.now v ≡ true) }
{
    meet_near(a, b, near)
}

/// Moves the least node of each word to the list, from place `from` on, and answers where the list then ends.
pub(crate) fn pick(set: &mut [u64], list: &mut [u32], from: usize) -> usize
    requires small { length set.old ≤ 256 }
    requires room { from + length set.old ≤ length list.old }
    ensures low { from ≤ result }
    ensures high { result ≤ from + length set.old }
    ensures picked { (before : ℕ → Bool) → IsPicked before (bit_of set.old) list.old from → IsPicked before (bit_of set.new) list.new result }
    ensures none { result ≡ from → (v : ℕ) → bit_of set.new v ≡ false }
{
    let mut n = from;
    for k in 0..set.len() {
        let word = set[k];
        if word != 0 {
            let b = lowest(word);
            set[k] = cleared(word, b);
            list[n] = 64 * k as u32 + b;
            n += 1;
        }
    }
    n
}

/// Moves some nodes to the list, from all over the set, and answers how many; none where the set is empty.
pub(crate) fn gather(set: &mut [u64], list: &mut [u32]) -> usize
    requires small { length set.old ≤ 256 }
    requires room { length set.old + 16 ≤ length list.old }
    ensures high { result ≤ length list.new }
    ensures picked { IsPicked (bit_of set.old) (bit_of set.new) list.new result }
    ensures none { result ≡ 0 → (v : ℕ) → bit_of set.new v ≡ false }
{
    let mut n = pick(set, list, 0);
    for _ in 0..3 {
        if n == 0 || n >= 16 {
            break;
        }
        let before = n;
        n = pick(set, list, n);
        if n == before {
            break;
        }
    }
    n
}
