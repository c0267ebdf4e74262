// Answers, put on the output word by word, a blank before each.
use crate::numbers::unsigned;
use chebyshev::Evaluation;
use common::Refusal;
use orbit::{ChebyshevOrbit, Located, Motion, Place, Report};
use std::io;
use std::io::Write;
use units::{Nanoseconds, Seconds};

// What is put on the output as words. std's `Display` does not do: it writes i64 and f64 in decimal, and may not be given to a type of another crate.
pub(crate) trait Answer {
    // Puts it on the output.
    fn put(&self, out: &mut impl Write) -> io::Result<()>;
}

// Puts one after the other.
pub(crate) fn put_all<A: Answer>(out: &mut impl Write, answers: &[A]) -> io::Result<()> {
    answers.iter().try_for_each(|answer| answer.put(out))
}

// The 16 digits of a word.
impl Answer for u64 {
    fn put(&self, out: &mut impl Write) -> io::Result<()> {
        write!(out, " {self:016x}")
    }
}

// A whole number's two's complement.
impl Answer for i64 {
    fn put(&self, out: &mut impl Write) -> io::Result<()> {
        unsigned(*self).put(out)
    }
}

// A count.
impl Answer for usize {
    fn put(&self, out: &mut impl Write) -> io::Result<()> {
        (*self as u64).put(out)
    }
}

// A double's bits, and a NaN as `nan`.
impl Answer for f64 {
    fn put(&self, out: &mut impl Write) -> io::Result<()> {
        if self.is_nan() {
            return out.write_all(b" nan");
        }
        self.to_bits().put(out)
    }
}

// A time, in seconds.
impl Answer for Seconds {
    fn put(&self, out: &mut impl Write) -> io::Result<()> {
        self.0.put(out)
    }
}

// An instant, in nanoseconds.
impl Answer for Nanoseconds {
    fn put(&self, out: &mut impl Write) -> io::Result<()> {
        self.0.put(out)
    }
}

// One after the other.
impl<A: Answer, const N: usize> Answer for [A; N] {
    fn put(&self, out: &mut impl Write) -> io::Result<()> {
        put_all(out, self)
    }
}

// A sum and its slope.
impl Answer for Evaluation {
    fn put(&self, out: &mut impl Write) -> io::Result<()> {
        [self.value, self.slope].put(out)
    }
}

// A model's end times and the coefficients of each axis.
impl Answer for ChebyshevOrbit {
    fn put(&self, out: &mut impl Write) -> io::Result<()> {
        [self.t0, self.t9].put(out)?;
        [self.cx, self.cy, self.cz].put(out)
    }
}

// A position and a velocity.
impl Answer for Motion {
    fn put(&self, out: &mut impl Write) -> io::Result<()> {
        let position = self.position;
        let velocity = self.velocity;
        [position.x, position.y, position.z].put(out)?;
        [velocity.x, velocity.y, velocity.z].put(out)
    }
}

// Where an instant lies: 0 before the first coordinate, 1 from the first to the last, 2 after the last.
impl Answer for Place {
    fn put(&self, out: &mut impl Write) -> io::Result<()> {
        (*self as u64).put(out)
    }
}

// An answer, and behind it the place of its instant.
impl<A: Answer> Answer for Located<A> {
    fn put(&self, out: &mut impl Write) -> io::Result<()> {
        self.answer.put(out)?;
        self.place.put(out)
    }
}

// Clock offset, frequency offset, RMSE, count, the instant, 1 or 0 for the fallback and how many lie outside the table.
impl Answer for Report {
    fn put(&self, out: &mut impl Write) -> io::Result<()> {
        [self.clock_offset.0, self.frequency_offset.0, self.rmse.0].put(out)?;
        self.count.put(out)?;
        self.approach.put(out)?;
        u64::from(self.fallback).put(out)?;
        self.outside.put(out)
    }
}

// A refusal's number in decimal alone, or 0 and the answer.
impl<A: Answer> Answer for Result<A, Refusal> {
    fn put(&self, out: &mut impl Write) -> io::Result<()> {
        match self {
            Ok(answer) => {
                out.write_all(b" 0")?;
                answer.put(out)
            }
            Err(refusal) => write!(out, " {}", refusal.number()),
        }
    }
}
