ghost use Rattle.std.specs.Prelude.{◌≡◌, ℕ, ◌+◌, ◌-◌, ◌*◌, ◌%◌, ◌^◌, ◌<◌, ◌≤◌, Bool, true, false, ◌&&◌, ◌||◌, not, nat_eq, length, None, OnOk, IfOk, IfSome, if◌then◌else◌};
ghost use Rattle.tf_numbers.specs.Numbers.{which_below, first_below};
ghost use Rattle.std.specs.Int.{bit_at};
ghost use Rattle.tf_links.specs.Bits.{has, room, has_both, is_within, words_for, AreAlike, AreUnset, IsFirstBit};

use std::alloc::Global;
use std::marker::Model;
use tf_values::Memory;

/// A set of numbers below its room, one bit for each. Contracts see the words, of which the first has
/// the numbers below 64.
#[derive(Drop)]
pub struct Bits {
    words: Vec<u64>,
}

impl Model for Bits {
    ghost use Rattle.std.specs.Prelude.{List, ℕ, length, ◌≤◌, ◌^◌};

    ghost Value = { List ℕ };

    ghost view = { λ bits. bits.words.items };

    ghost invariant = { λ bits. length bits.words.items ≤ 2 ^ 58 };
}

impl Bits {
    /// No number yet, with room for those below `count`.
    pub fn new(alloc: Global, count: usize) -> Result<Bits, Memory>
        ensures room { IfOk result (λ bits. length bits ≡ words_for count) }
        ensures none { IfOk result (λ bits. (k : ℕ) → has bits k ≡ false) }
    {
        let mut words = Vec::with_capacity(alloc, count / 64 + 1)?;
        for _ in 0..count / 64 + 1 {
            words.push(0)?;
        }
        Ok(Bits { words })
    }

    /// The same numbers.
    pub fn copy(&self, alloc: Global) -> Result<Bits, Memory>
        ensures { IfOk result (λ bits. bits ≡ self.now) }
    {
        Ok(Bits {
            words: Vec::from_slice(alloc, &self.words)?,
        })
    }

    /// Whether the number is in the set.
    #[tactic(auto, using(crate::proofs::BitLemmas::past_none, crate::proofs::NumberLemmas::bit_read))]
    pub fn has(&self, number: usize) -> bool
        ensures { result ≡ has self.now number }
    {
        if self.words.len() <= number / 64 {
            return false;
        }
        self.words[number / 64] >> (number % 64) & 1 == 1
    }

    /// Adds a number below the room.
    #[tactic(auto, using(crate::proofs::NumberLemmas::insert_here))]
    pub fn insert(&mut self, number: usize)
        requires { number < room self.old }
        ensures set { (k : ℕ) → has self.new k ≡ (nat_eq number k || has self.old k) }
        ensures room { length self.new ≡ length self.old }
    {
        self.words[number / 64] |= 1 << (number % 64);
    }

    /// Takes a number away.
    #[tactic(auto, using(crate::proofs::NumberLemmas::remove_here, crate::proofs::BitLemmas::past_room))]
    pub fn remove(&mut self, number: usize)
        ensures set { (k : ℕ) → has self.new k ≡ (not (nat_eq number k) && has self.old k) }
        ensures room { length self.new ≡ length self.old }
    {
        if number / 64 < self.words.len() {
            self.words[number / 64] &= !(1 << (number % 64));
        }
    }

    /// Adds a number below the room, or takes it away.
    pub fn set(&mut self, number: usize, on: bool)
        requires { number < room self.old }
        ensures set { (k : ℕ) → has self.new k ≡ (if nat_eq number k then on else has self.old k) }
        ensures room { length self.new ≡ length self.old }
    {
        if on {
            self.insert(number);
        } else {
            self.remove(number);
        }
    }

    /// Adds the numbers of another set of the same room.
    #[tactic(auto, using(crate::proofs::NumberLemmas::joined_here, crate::proofs::BitLemmas::joined_all, crate::proofs::NumberLemmas::length_joined))]
    pub fn union(&mut self, other: &Bits)
        requires { length self.old ≡ length other.now }
        ensures set { (k : ℕ) → has self.new k ≡ (has self.old k || has other.now k) }
        ensures room { length self.new ≡ length self.old }
    {
        for i in 0..self.words.len() {
            self.words[i] |= other.words[i];
        }
    }

    /// Whether each number of this set is in the other, which has the same room.
    #[tactic(auto, using(crate::proofs::NumberLemmas::within_here, crate::proofs::NumberLemmas::outside_here, crate::proofs::BitLemmas::within_all))]
    pub fn is_within(&self, other: &Bits) -> bool
        requires { length self.now ≡ length other.now }
        ensures { result ≡ is_within self.now other.now }
    {
        for i in 0..self.words.len() {
            if self.words[i] | other.words[i] != other.words[i] {
                return false;
            }
        }
        true
    }

    /// The least number that is in both sets, which have the same room.
    #[tactic(auto, using(crate::proofs::NumberLemmas::apart_here, crate::proofs::NumberLemmas::common_here, crate::proofs::BitLemmas::apart_all))]
    pub fn first_common(&self, other: &Bits) -> Option<usize>
        requires { length self.now ≡ length other.now }
        ensures { result ≡ first_below (room self.now) (has_both self.now other.now) }
    {
        for i in 0..self.words.len() {
            let both = self.words[i] & other.words[i];
            if both != 0 {
                return Some(i * 64 + both.trailing_zeros() as usize);
            }
        }
        None
    }

    /// The least number of the set.
    pub fn first(&self) -> Option<usize>
        ensures { result ≡ first_below (room self.now) (has self.now) }
    {
        self.first_common(self)
    }

    /// Up to before which number, at most `past`, all from this one on are in the set, or all aren't. A word is
    /// passed at once.
    #[tactic(auto, using(crate::proofs::NumberLemmas::run_start, crate::proofs::NumberLemmas::run_on, crate::proofs::NumberLemmas::run_cut))]
    pub fn run_end(&self, from: usize, past: usize) -> usize
        requires { from < past }
        ensures begins { from < result }
        ensures ends { result ≤ past }
        ensures alike { (k : ℕ) → from ≤ k → k < result → has self.now k ≡ has self.now from }
    {
        let on = self.has(from);
        let mut end = from + 1;
        while end < past {
            match self.first_other(end, on) {
                Some(other) => return other.min(past),
                None => end = end.saturating_add(64 - end % 64),
            }
        }
        past
    }

    /// The first number from this one on in its word that is in the set where it shouldn't, or the other way
    /// round.
    fn first_other(&self, number: usize, on: bool) -> Option<usize>
        ensures none { result ≡ None → AreAlike self.now on number (number + (64 - number % 64)) }
        ensures begins { IfSome result (λ other. number ≤ other) }
        ensures some { IfSome result (AreAlike self.now on number) }
    {
        match next_bit(self.others(number / 64, on), number % 64) {
            None => None,
            Some(bit) => Some(number - number % 64 + bit),
        }
    }

    /// The bits that aren't in a word as they should.
    #[tactic(auto, using(crate::proofs::NumberLemmas::other_bits_on, crate::proofs::NumberLemmas::other_bits_off, crate::proofs::NumberLemmas::other_bits_past_on, crate::proofs::NumberLemmas::other_bits_past))]
    fn others(&self, i: usize, on: bool) -> u64
        ensures { (k : ℕ) → k < 64 → bit_at result k ≡ 0 → has self.now (i * 64 + k) ≡ on }
    {
        if self.words.len() <= i {
            return if on { u64::MAX } else { 0 };
        }
        if on { !self.words[i] } else { self.words[i] }
    }

    /// The numbers of the set, ascending.
    #[tactic(auto, using(crate::proofs::NumberLemmas::none_of_word))]
    pub fn numbers(&self, alloc: Global) -> Result<Vec<usize>, Memory>
        ensures { IfOk result (λ numbers. numbers.items ≡ which_below (room self.now) (has self.now)) }
    {
        let mut numbers = Vec::new(alloc);
        for i in 0..self.words.len() {
            if self.words[i] != 0 {
                self.add_numbers_of_word(i, &mut numbers)?;
            }
        }
        Ok(numbers)
    }

    /// Adds the numbers that word `i` has.
    #[tactic(auto, using(crate::proofs::NumberLemmas::word_over, crate::proofs::NumberLemmas::word_next))]
    fn add_numbers_of_word(&self, i: usize, numbers: &mut Vec<usize>) -> Result<(), Memory>
        requires within { i < length self.now }
        requires few { i < 2 ^ 58 }
        requires before { numbers.old.items ≡ which_below (64 * i) (has self.now) }
        ensures { OnOk result (numbers.new.items ≡ which_below (64 * (i + 1)) (has self.now)) }
    {
        let word = self.words[i];
        let mut bit = 0;
        while bit < 64 {
            match next_bit(word, bit) {
                None => return Ok(()),
                Some(place) => {
                    numbers.push(i * 64 + place)?;
                    bit = place + 1;
                }
            }
        }
        Ok(())
    }
}

/// The first bit of a word that is set, from one on.
#[tactic(auto, using(crate::proofs::NumberLemmas::no_bit))]
fn next_bit(word: u64, bit: usize) -> Option<usize>
    requires { bit < 64 }
    ensures none { result ≡ None → AreUnset word bit 64 }
    ensures some { IfSome result (IsFirstBit word bit) }
{
    let rest = word >> bit;
    if rest == 0 {
        return None;
    }
    Some(bit + rest.trailing_zeros() as usize)
}
