// The words of a line, taken in turn by the entry that it names: slices, each after its length, and single words.
ghost use Rattle.std.specs.Int.{w64};
ghost use Rattle.std.proofs.Common.{of_z};
ghost use Rattle.std.specs.Prelude.{◌≡◌, ◌∷◌, ◌++◌, [], length, IfNone, IfSome, IsSomeAnd, MatchOption, false, nat_eq};

use crate::numbers::{double, signed};
use checks::{AXES, MOST_COORDINATES, MOST_SAMPLES};
use std::alloc::{AllocError, Global};
use std::array;
use units::{Metres, Observer};

// How many words a line may have: the longest table, the longest recording, and some for a row or a sample too many and for single words.
pub(crate) const ROOM: usize = (1 + AXES) * MOST_COORDINATES + 2 * MOST_SAMPLES + 64;

// The words that are not yet taken. Where a line lacks a word, what an earlier line left at its place is taken; where it lacks a slice, that has no
// element, and the words behind it are 0. Either way the line is no case of its entry, which `has_left` tells.
#[derive(Clone, Copy)]
pub(crate) struct Words<'a> {
    // the line's own; none where one was taken that it lacks
    own: Option<&'a [u64]>,
    // those that earlier lines left behind them
    earlier: &'a [u64],
}

impl<'a> Words<'a> {
    // The words of a line, none of them taken, and those that earlier lines left behind them.
    pub(crate) fn new(own: &'a [u64], earlier: &'a [u64]) -> Words<'a>
        ensures own { IfSome result.own (λ words. words.now ≡ own.now) }
        ensures earlier { result.earlier.now ≡ earlier.now }
    {
        Words {
            own: Some(own),
            earlier,
        }
    }

    // Whether so many of the line's own words are left, and none was taken that it lacks.
    pub(crate) fn has_left(self, count: usize) -> bool
        ensures { MatchOption self.entry.own (result ≡ false) (λ own. result ≡ nat_eq (length own.now) count) }
    {
        self.own.is_some_and(|own| own.len() == count)
    }

    // The k-th word from the line's end, counted from 0; 0 where it has fewer.
    pub(crate) fn from_end(self, k: usize) -> u64 {
        let word = self.own.and_then(|own| own.iter().nth_back(k));
        word.copied().unwrap_or(0)
    }

    // The next word.
    pub(crate) fn word(&mut self) -> u64
        ensures { IfSome self.new.own (λ rest. IsSomeAnd self.old.own (λ own. own.now ≡ result ∷ rest.now)) }
    {
        if let Some((word, rest)) = self.own.and_then(|own| own.split_first()) {
            self.own = Some(rest);
            return *word;
        }
        self.own = None;
        match self.earlier.split_first() {
            Some((word, rest)) => {
                self.earlier = rest;
                *word
            }
            None => 0,
        }
    }

    // The next word, as the whole number of which it is the two's complement.
    pub(crate) fn whole(&mut self) -> i64
        ensures { IfSome self.new.own (λ rest. IsSomeAnd self.old.own (λ own. own.now ≡ of_z w64 result ∷ rest.now)) }
    {
        signed(self.word())
    }

    // The next word, as the double whose bits it has.
    pub(crate) fn double(&mut self) -> f64 {
        double(self.word())
    }

    // The next ten words, as doubles.
    pub(crate) fn ten_doubles(&mut self) -> [f64; 10] {
        array::from_fn(|_| self.double())
    }

    // The next three words, as the place of the observer.
    pub(crate) fn observer(&mut self) -> Observer {
        let x = Metres(self.double());
        let y = Metres(self.double());
        let z = Metres(self.double());
        Observer { x, y, z }
    }

    // The slice whose length is the next word, and the line's words behind it; none where the line lacks one of these.
    fn split_slice(self) -> Option<(&'a [u64], &'a [u64])>
        ensures { IfSome result (λ split. IsSomeAnd self.entry.own (λ own. own.now ≡ length split.0.now ∷ split.0.now ++ split.1.now)) }
    {
        let (length, behind) = self.own?.split_first()?;
        behind.split_at_checked(*length as usize)
    }

    // The next slice.
    pub(crate) fn slice(&mut self) -> &'a [u64]
        ensures taken { IfSome self.new.own (λ rest. IsSomeAnd self.old.own (λ own. own.now ≡ length result.now ∷ result.now ++ rest.now)) }
        ensures lacks { IfNone self.new.own (result.now ≡ []) }
    {
        let Some((slice, rest)) = self.split_slice() else {
            *self = Words {
                own: None,
                earlier: &[],
            };
            return &[];
        };
        self.own = Some(rest);
        slice
    }

    // So many bytes of the words behind the next one, eight in each, the first one lowest.
    pub(crate) fn bytes_behind(self, alloc: Global, count: usize) -> Result<Vec<u8>, AllocError> {
        self.own
            .unwrap_or(&[])
            .iter()
            .chain(self.earlier)
            .skip(1)
            .flat_map(|word| word.to_le_bytes())
            .take(count)
            .collect(alloc)
    }
}
