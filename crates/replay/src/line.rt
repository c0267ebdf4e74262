// A line as far as it is read: a name, and behind each blank a word of 16 digits.
ghost use Rattle.std.specs.List.{IsSplitAt};
ghost use Rattle.std.specs.Prelude.{◌≡◌, IfSome};

use crate::numbers::digit_of;
use crate::words::{ROOM, Words};
use std::alloc::{AllocError, Global};

// How many letters a name may have.
const LETTERS: usize = 64;

// How many digits a word has.
const DIGITS: usize = 16;

// What is read of a line so far.
#[derive(Drop)]
pub(crate) struct Line {
    // the letters of its name
    name: Vec<u8>,
    // whether the line may still be a case
    is_case: bool,
    // its words, the last one as far as it is read; those behind them are an earlier line's, and stay, since a line that lacks words is answered from them
    words: Vec<u64>,
    // how many words it has
    count: usize,
    // how many digits of the last word are read, and their value
    digits: usize,
    word: u64,
}

impl Line {
    // A line of which nothing is read.
    pub(crate) fn new(alloc: Global) -> Result<Line, AllocError> {
        Ok(Line {
            name: Vec::with_capacity(alloc, LETTERS)?,
            is_case: true,
            words: vec![in alloc; 0u64; ROOM]?,
            count: 0,
            digits: DIGITS,
            word: 0,
        })
    }

    // Begins the next line. The room for the name and the words is used again.
    pub(crate) fn begin(&mut self) {
        self.name.clear();
        self.is_case = true;
        self.count = 0;
        self.digits = DIGITS;
        self.word = 0;
    }

    // The name and the words, where the line may be a case and its last word is whole.
    pub(crate) fn case(&self) -> Option<(&[u8], Words<'_>)>
        ensures name { IfSome result (λ case. case.0.now ≡ self.now.name.items) }
        ensures words { IfSome result (λ case. IfSome case.1.own (λ own. IsSplitAt self.now.words.items self.now.count own.now case.1.earlier.now)) }
    {
        if !self.is_case || self.digits != DIGITS {
            return None;
        }
        let (own, earlier) = self.words.split_at_checked(self.count)?;
        Some((&self.name, Words::new(own, earlier)))
    }

    // Takes one more byte; where it has no place, the line is no case.
    pub(crate) fn take(&mut self, byte: u8) {
        if self.place(byte).is_none() {
            self.is_case = false;
            self.word = 0;
        }
    }

    // Puts a byte in its place: a blank begins a word, any other is a letter of the name or a digit of the word. None where it has no place.
    fn place(&mut self, byte: u8) -> Option<()> {
        if byte == b' ' {
            return self.begin_word();
        }
        match self.count.checked_sub(1) {
            None => self.take_letter(byte),
            Some(last) => self.take_digit(last, byte),
        }
    }

    // Begins a word, where the one before it is whole.
    fn begin_word(&mut self) -> Option<()> {
        if self.digits != DIGITS {
            return None;
        }
        self.count = self.count.checked_add(1)?;
        self.digits = 0;
        self.word = 0;
        Some(())
    }

    // A letter of the name, where it has not too many. There is room for as many, so that none asks for more.
    fn take_letter(&mut self, letter: u8) -> Option<()> {
        if self.name.len() >= LETTERS {
            return None;
        }
        self.name.push(letter).ok()
    }

    // A digit of the last word, which stands at this place, where it has not too many.
    fn take_digit(&mut self, last: usize, byte: u8) -> Option<()> {
        let digit = digit_of(byte)?;
        if self.digits >= DIGITS {
            return None;
        }
        let word = (self.word << 4) | u64::from(digit);
        *self.words.get_mut(last)? = word;
        self.word = word;
        self.digits += 1;
        Some(())
    }
}
