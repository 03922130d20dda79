//! Sets of numbers below a bound, packed 64 to a word.
ghost use Rattle.std.specs.Prelude.{◌≡◌, ℕ, ◌+◌, ◌*◌, ◌-◌, ◌/◌, ◌^◌, ◌<◌, ◌≤◌, ◌||◌, ◌&&◌, ◌==◌, not, false, [], ◌∷◌, length, map, zip, IfOk, IfSome, IfNone, Some, MatchOption, replicate, slice_set, count_by, bit_and, bit_or, bit_xor, nat_eq, slice_index, true, IsTrue, ◌↔◌};
ghost use Rattle.std.specs.Iterator.{YieldsFirst, UpTo, item_count};
ghost use Rattle.std.specs.Iterator.SizeHint.{IsWithinCount};
ghost use Rattle.std.specs.Cmp.{partial_equiv_from_equiv};
ghost use Rattle.std.specs.Cmp.Lexicographic.{pointwise};
ghost use Rattle.std.specs.Ordering.{on};
ghost use Rattle.std.proofs.lemmas.Cmp.{on_equiv, nat_list_eq_equiv};
ghost use Rattle.digraphs.specs.Bits.{has, members, one_alone};
ghost use Rattle.digraphs.specs.NextMembers.{members_from, IsFirstIn};
ghost use Rattle.digraphs.specs.inner.Words.{Fit};

use std::alloc::{AllocError, Global};
use std::marker::Model;

/// A set of numbers below `size`.
#[derive(Debug)]
pub struct IxBitSet {
    size: usize,
    words: Vec<u64>,
}

impl Drop for IxBitSet {
    // Written out, so that a crate above calls it. A derived drop is proved in each crate that drops a value, with those of all fields.
    fn drop(self) {
        let IxBitSet {
            size: _size,
            words: _words,
        } = self;
    }
}

impl Model for IxBitSet {
    ghost use Rattle.std.specs.Prelude.{List, Bool};
    ghost use Rattle.digraphs.specs.inner.Words.{bits_of, AreWords};

    ghost Value = { List Bool };

    ghost view = { λ s. bits_of s.size s.words.items };

    ghost invariant = { λ s. AreWords s.size s.words.items };
}

impl IxBitSet {
    /// Returns the empty set of bound `size`.
    pub fn empty(alloc: Global, size: usize) -> Result<IxBitSet, AllocError>
        ensures { IfOk result (λ set. set ≡ replicate size false) }
    {
        let words = copies(alloc, 0, size / 64 + 1)?;
        Ok(IxBitSet { size, words })
    }

    /// Returns the set of all numbers below `size`.
    pub fn full(alloc: Global, size: usize) -> Result<IxBitSet, AllocError>
        ensures { IfOk result (λ set. set ≡ replicate size true) }
    {
        let mut words = copies(alloc, u64::MAX, size / 64 + 1)?;
        words[size / 64] = (1 << (size % 64)) - 1;
        Ok(IxBitSet { size, words })
    }

    /// Returns a copy: the same numbers below the same bound.
    pub fn try_clone(&self, alloc: Global) -> Result<IxBitSet, AllocError>
        ensures { IfOk result (λ set. set ≡ self.now) }
    {
        let words = Vec::from_slice(alloc, &self.words)?;
        Ok(IxBitSet {
            size: self.size,
            words,
        })
    }

    /// Returns the bound. Each number in the set is below it.
    pub fn size(&self) -> usize
        ensures { result ≡ length self.now }
    {
        self.size
    }

    /// Returns true if `number` is in the set.
    pub fn contains(&self, number: usize) -> bool
        requires { number < length self.now }
        ensures { result ≡ has self.now number }
    {
        (self.words[number / 64] >> (number % 64)) & 1 == 1
    }

    /// Inserts `number` into the set.
    pub fn insert(&mut self, number: usize)
        requires { number < length self.old }
        ensures { self.new ≡ slice_set self.old number true }
    {
        self.words[number / 64] |= 1 << (number % 64);
    }

    /// Removes `number` from the set.
    pub fn remove(&mut self, number: usize)
        requires { number < length self.old }
        ensures { self.new ≡ slice_set self.old number false }
    {
        self.words[number / 64] &= !(1 << (number % 64));
    }

    /// Returns the number of members.
    pub fn count(&self) -> usize
        ensures { result ≡ count_by (λ b. b) self.now }
    {
        let mut count = 0;
        for word in self.words.iter() {
            count += word.count_ones() as usize;
        }
        count
    }

    /// Returns an iterator over the members, ascending.
    pub fn ones(&self) -> Ones<'_>
        ensures { result ≡ members self.now }
    {
        Ones {
            set: self,
            next: 0,
            left: self.count(),
        }
    }

    /// Returns the numbers in `self`, in `other` or in both. The two sets must have the same bound, and the
    /// result has it too.
    pub fn union(&self, alloc: Global, other: &IxBitSet) -> Result<IxBitSet, AllocError>
        requires { length self.now ≡ length other.now }
        ensures size { IfOk result (λ set. length set ≡ length self.now) }
        ensures members { IfOk result (λ set. (k : ℕ) → has set k ≡ (has self.now k || has other.now k)) }
    {
        let words = either(alloc, &self.words, &other.words)?;
        Ok(IxBitSet {
            size: self.size,
            words,
        })
    }

    /// Returns the numbers in both `self` and `other`. The two sets must have the same bound, and the result
    /// has it too.
    pub fn intersection(&self, alloc: Global, other: &IxBitSet) -> Result<IxBitSet, AllocError>
        requires { length self.now ≡ length other.now }
        ensures size { IfOk result (λ set. length set ≡ length self.now) }
        ensures members { IfOk result (λ set. (k : ℕ) → has set k ≡ (has self.now k && has other.now k)) }
    {
        let words = both(alloc, &self.words, &other.words)?;
        Ok(IxBitSet {
            size: self.size,
            words,
        })
    }

    /// Returns the numbers in `self` that aren't in `other`. The two sets must have the same bound, and the
    /// result has it too.
    pub fn difference(&self, alloc: Global, other: &IxBitSet) -> Result<IxBitSet, AllocError>
        requires { length self.now ≡ length other.now }
        ensures size { IfOk result (λ set. length set ≡ length self.now) }
        ensures members { IfOk result (λ set. (k : ℕ) → has set k ≡ (has self.now k && not (has other.now k))) }
    {
        let words = first_alone(alloc, &self.words, &other.words)?;
        Ok(IxBitSet {
            size: self.size,
            words,
        })
    }

    /// Returns the numbers in exactly one of `self` and `other`. The two sets must have the same bound, and the
    /// result has it too.
    pub fn symmetric_difference(
        &self,
        alloc: Global,
        other: &IxBitSet,
    ) -> Result<IxBitSet, AllocError>
        requires { length self.now ≡ length other.now }
        ensures size { IfOk result (λ set. length set ≡ length self.now) }
        ensures members { IfOk result (λ set. (k : ℕ) → has set k ≡ one_alone (has self.now k) (has other.now k)) }
    {
        let words = exactly_one(alloc, &self.words, &other.words)?;
        Ok(IxBitSet {
            size: self.size,
            words,
        })
    }

    /// Returns true if both sets have the same members and the same bound.
    pub fn is_identical(&self, other: &IxBitSet) -> bool
        ensures { IsTrue result ↔ (self.now ≡ other.now) }
    {
        self.size == other.size && same_words(&self.words, &other.words)
    }

    /// Returns the least member of word `place`: the numbers from `64 * place` up to the next multiple of 64.
    pub fn first_in(&self, place: usize) -> Option<usize>
        requires { place * 64 ≤ length self.now }
        ensures none { IfNone result ((j : ℕ) → j / 64 ≡ place → has self.now j ≡ false) }
        ensures some { IfSome result (IsFirstIn self.now place) }
    {
        let word = self.words[place];
        if word == 0 {
            return None;
        }
        Some(place * 64 + word.trailing_zeros() as usize)
    }

    /// Returns the least member that is at least `from`.
    pub fn next_from(&self, from: usize) -> Option<usize>
        requires { from ≤ length self.now }
        ensures fits { length self.now < 2 ^ 64 }
        ensures least { MatchOption result (members_from self.now from ≡ []) (λ k. (from ≤ k) × (k < length self.now) × (members_from self.now from ≡ k ∷ members_from self.now (k + 1))) }
    {
        let first = from / 64;
        let word = self.words[first] >> (from % 64);
        if word != 0 {
            return Some(from + word.trailing_zeros() as usize);
        }
        for place in first + 1..self.words.len() {
            let word = self.words[place];
            if word != 0 {
                return Some(place * 64 + word.trailing_zeros() as usize);
            }
        }
        None
    }
}

/// Compares the members only: two sets with different bounds can be equal.
impl PartialEq for IxBitSet {
    ghost eq = { on members (pointwise nat_eq) };

    ghost laws = { partial_equiv_from_equiv (on_equiv members nat_list_eq_equiv) };

    fn eq(&self, other: &IxBitSet) -> bool {
        same_words(&self.words, &other.words)
    }
}

impl Eq for IxBitSet {
    ghost laws = { on_equiv members nat_list_eq_equiv };
}

// Returns `count` copies of `word`.
fn copies(alloc: Global, word: u64, count: usize) -> Result<Vec<u64>, AllocError>
    ensures { IfOk result (λ words. words.items ≡ replicate count word) }
{
    vec![in alloc; word; count]
}

// Returns the word at `place`, or 0 past the end.
fn word_at(words: &[u64], place: usize) -> u64
    ensures { result ≡ slice_index words.now place }
{
    match words.get(place) {
        Some(word) => *word,
        None => 0,
    }
}

// Returns true if both lists have the same bits. Missing words count as 0.
fn same_words(mine: &[u64], its: &[u64]) -> bool
    ensures same { result ≡ true → (i : ℕ) → slice_index mine.now i ≡ slice_index its.now i }
    ensures apart { ((i : ℕ) → slice_index mine.now i ≡ slice_index its.now i) → result ≡ true }
    ensures mine_fit { Fit mine.now }
    ensures its_fit { Fit its.now }
{
    for place in 0..mine.len().max(its.len()) {
        if word_at(mine, place) != word_at(its, place) {
            return false;
        }
    }
    true
}

// Returns the bitwise OR of each pair of words.
fn either(alloc: Global, mine: &[u64], its: &[u64]) -> Result<Vec<u64>, AllocError>
    ensures { IfOk result (λ words. words.items ≡ map (λ p. bit_or p.0 p.1) (zip mine.now its.now)) }
{
    let mut words = Vec::with_capacity(alloc, mine.len())?;
    words.extend(mine.iter().zip(its).map(|(a, b)| *a | *b))?;
    Ok(words)
}

// Returns the bitwise AND of each pair of words.
fn both(alloc: Global, mine: &[u64], its: &[u64]) -> Result<Vec<u64>, AllocError>
    ensures { IfOk result (λ words. words.items ≡ map (λ p. bit_and p.0 p.1) (zip mine.now its.now)) }
{
    let mut words = Vec::with_capacity(alloc, mine.len())?;
    words.extend(mine.iter().zip(its).map(|(a, b)| *a & *b))?;
    Ok(words)
}

// Returns the bits of `mine` that aren't in `its`, word by word.
fn first_alone(alloc: Global, mine: &[u64], its: &[u64]) -> Result<Vec<u64>, AllocError>
    ensures { IfOk result (λ words. words.items ≡ map (λ p. bit_and p.0 (bit_xor p.0 p.1)) (zip mine.now its.now)) }
{
    let mut words = Vec::with_capacity(alloc, mine.len())?;
    words.extend(mine.iter().zip(its).map(|(a, b)| *a & (*a ^ *b)))?;
    Ok(words)
}

// Returns the bitwise XOR of each pair of words.
fn exactly_one(alloc: Global, mine: &[u64], its: &[u64]) -> Result<Vec<u64>, AllocError>
    ensures { IfOk result (λ words. words.items ≡ map (λ p. bit_xor p.0 p.1) (zip mine.now its.now)) }
{
    let mut words = Vec::with_capacity(alloc, mine.len())?;
    words.extend(mine.iter().zip(its).map(|(a, b)| *a ^ *b))?;
    Ok(words)
}

/// An iterator over the members of a set, ascending.
#[derive(Debug, Drop)]
pub struct Ones<'a> {
    set: &'a IxBitSet,
    next: usize,
    left: usize,
}

impl<'a> Model for Ones<'a> {
    ghost use Rattle.std.specs.Prelude.{List, ℕ, ◌≡◌, ◌≤◌, length};
    ghost use Rattle.digraphs.specs.NextMembers.{members_from};

    ghost Value = { List ℕ };

    ghost view = { λ s. members_from s.set.now s.next };

    ghost invariant = { λ s. (s.next ≤ length s.set.now) × (s.left ≡ length (members_from s.set.now s.next)) };
}

impl<'a> Iterator for Ones<'a> {
    type Item = usize;

    ghost next_gives = { YieldsFirst (λ s. s) };

    ghost remaining = { item_count (λ s. s) };

    fn next(&mut self) -> Option<usize> {
        let number = self.set.next_from(self.next)?;
        self.next = number + 1;
        self.left -= 1;
        Some(number)
    }

    fn size_hint(&self) -> (usize, Option<usize>)
        ensures exact { result ≡ (length self.now, Some (length self.now)) }
        ensures lower { IsWithinCount result.0 (item_count (λ s. s) self.now) }
        ensures upper { IfSome result.1 (UpTo (item_count (λ s. s) self.now)) }
    {
        (self.left, Some(self.left))
    }
}

impl<'a> ExactSizeIterator for Ones<'a> {
    fn len(&self) -> usize {
        self.left
    }
}
