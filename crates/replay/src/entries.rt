// The entries, each found by its name: the library is called with what the words say, its answer put, and said whether the words were a case of the
// entry; where they were not, the answer means nothing.
// One more entry is one more arm in `answer`, by its name, and a method.
ghost use Rattle.std.specs.Prelude.{◌≡◌, ◌+◌, length, IfOk, IfSome, IsSomeAnd};

use crate::boards::{board_of, entries_of};
use crate::numbers::{double, signed};
use crate::printer::{Answer, put_all};
use crate::words::Words;
use checks::MOST_SAMPLES;
use orbit::ChebyshevOrbit;
use std::alloc::{AllocError, Global};
use std::io::Write;
use std::{array, io};
use units::{Hertz, LeapSeconds, Nanoseconds, Seconds, Settings};

// How many elements an area may have: one for each sample of the longest recording, and a few behind them. The stored files have fewer positions.
const AREA: usize = MOST_SAMPLES + 8;

// How many bytes an orbit file may have.
const FILE: usize = 1024;

// The two areas that an entry fills. Their lengths are the last two words of the line, and before the call they hold markers.
#[derive(Drop)]
struct Areas {
    instants: Vec<i64>,
    numbers: Vec<f64>,
}

// Both areas, whole.
impl Answer for Areas {
    fn put(&self, out: &mut impl Write) -> io::Result<()> {
        put_all(out, &self.instants)?;
        put_all(out, &self.numbers)
    }
}

// The three bytes of a satellite, the first one lowest.
fn satellite_of(word: u64) -> [u8; 3] {
    let [first, second, third, ..] = word.to_le_bytes();
    [first, second, third]
}

// A line that may be a case: its words, and where its answer goes. What an entry needs of memory is asked of `alloc`.
#[derive(Drop)]
pub(crate) struct Case<'a, W> {
    pub(crate) alloc: Global,
    pub(crate) out: &'a mut W,
    pub(crate) words: Words<'a>,
}

impl<W: Write> Case<'_, W> {
    // Has the entry of this name answer, and says whether the words were a case of it.
    pub(crate) fn answer(&mut self, name: &[u8]) -> io::Result<bool> {
        match name {
            b"sqrt" => float::sqrt(self.words.double()).put(self.out)?,
            b"nearest" => float::nearest(self.words.whole()).put(self.out)?,
            b"truncated" => float::truncated(self.words.double()).put(self.out)?,
            b"evaluate_chebyshev" => self.evaluate_chebyshev()?,
            b"invert_matrix_10" => self.invert_matrix_10()?,
            b"get_chebyshev_model" => self.get_chebyshev_model()?,
            b"propagate_ecef" => self.propagate_ecef()?,
            b"evaluate" => self.evaluate()?,
            b"find_pca_time" => self.find_pca_time()?,
            b"downsample_data" => return self.downsample_data(),
            b"estimate_measured_pca_time" => self.estimate_measured_pca_time()?,
            b"steepest_slope" => self.steepest_slope()?,
            b"estimate_slant_range" => self.estimate_slant_range()?,
            b"fit_satellite" => self.fit_satellite()?,
            b"pass" => return self.pass(),
            b"read_sp3" => return self.read_sp3(),
            b"fleet_board" => return self.fleet_board(),
            _ => return Ok(false),
        }
        Ok(self.words.has_left(0))
    }

    // The next two slices: instants, and a number or more for each. Where the line has both, they and their lengths are the words that are taken.
    fn series(&mut self) -> Result<(Vec<i64>, Vec<f64>), AllocError>
        ensures { IfOk result (λ read. IfSome self.new.words.own (λ rest. IsSomeAnd self.old.words.own (λ own.
            length own.now ≡ length read.0.items + length read.1.items + length rest.now + 2))) }
    {
        let instants = self.words.slice();
        let numbers = self.words.slice();
        let instants = instants.iter().map(|word| signed(*word));
        let numbers = numbers.iter().map(|word| double(*word));
        Ok((instants.collect(self.alloc)?, numbers.collect(self.alloc)?))
    }

    // The areas of the line, where neither is too long.
    fn areas(&self) -> io::Result<Option<Areas>> {
        let m = self.words.from_end(1) as usize;
        let n = self.words.from_end(0) as usize;
        if m > AREA || n > AREA {
            return Ok(None);
        }
        Ok(Some(Areas {
            instants: vec![in self.alloc; 0x1111_1111_1111_1111i64; m]?,
            numbers: vec![in self.alloc; double(0x4444_4444_4444_4444); n]?,
        }))
    }

    // The bytes of an orbit file, the slice and how many there are being next; none where they are too many.
    fn file(&mut self) -> io::Result<Option<Vec<u8>>> {
        let stored = self.words;
        let _slice = self.words.slice();
        let count = self.words.word() as usize;
        if count > FILE {
            return Ok(None);
        }
        Ok(Some(stored.bytes_behind(self.alloc, count)?))
    }

    // `evaluate_chebyshev C0..C9 TAU`: the sum and its slope.
    fn evaluate_chebyshev(&mut self) -> io::Result<()> {
        let coefficients = self.words.ten_doubles();
        let tau = self.words.double();
        chebyshev::evaluate_chebyshev(coefficients, tau).put(self.out)
    }

    // `invert_matrix_10 A00..A99`: the refusal alone, or 0 and the hundred cells of the inverse.
    fn invert_matrix_10(&mut self) -> io::Result<()> {
        let rows = array::from_fn(|_| self.words.ten_doubles());
        chebyshev::invert_matrix_10(rows).put(self.out)
    }

    // `get_chebyshev_model INSTANTS POSITIONS INSTANT TOLERANCE`: the refusal alone, or 0 and the model.
    fn get_chebyshev_model(&mut self) -> io::Result<()> {
        let (instants, positions) = self.series()?;
        let instant = Nanoseconds(self.words.whole());
        let tolerance = Seconds(self.words.double());
        orbit::get_chebyshev_model(&instants, &positions, instant, tolerance).put(self.out)
    }

    // `propagate_ecef INSTANTS POSITIONS INSTANT TOLERANCE`: the refusal alone, or 0 with the position, the velocity and the place.
    fn propagate_ecef(&mut self) -> io::Result<()> {
        let (instants, positions) = self.series()?;
        let instant = Nanoseconds(self.words.whole());
        let tolerance = Seconds(self.words.double());
        orbit::propagate_ecef(&instants, &positions, instant, tolerance).put(self.out)
    }

    // `evaluate T0 T9 CX CY CZ INSTANT`: the refusal alone, or 0 with the position and the velocity.
    fn evaluate(&mut self) -> io::Result<()> {
        let t0 = Seconds(self.words.double());
        let t9 = Seconds(self.words.double());
        let cx = self.words.ten_doubles();
        let cy = self.words.ten_doubles();
        let cz = self.words.ten_doubles();
        let instant = Nanoseconds(self.words.whole());
        orbit::evaluate(ChebyshevOrbit { t0, t9, cx, cy, cz }, instant).put(self.out)
    }

    // `find_pca_time INSTANTS POSITIONS OX OY OZ INSTANT TOLERANCE`: the refusal alone, or 0, the instant and its place.
    fn find_pca_time(&mut self) -> io::Result<()> {
        let (instants, positions) = self.series()?;
        let observer = self.words.observer();
        let instant = Nanoseconds(self.words.whole());
        let tolerance = Seconds(self.words.double());
        orbit::find_pca_time(&instants, &positions, observer, instant, tolerance).put(self.out)
    }

    // `estimate_measured_pca_time INSTANTS FREQUENCIES`: the refusal alone, or 0 and the instant.
    fn estimate_measured_pca_time(&mut self) -> io::Result<()> {
        let (instants, frequencies) = self.series()?;
        samples::estimate_measured_pca_time(&instants, &frequencies).put(self.out)
    }

    // `steepest_slope INSTANTS FREQUENCIES`: the refusal alone, or 0 and the slope.
    fn steepest_slope(&mut self) -> io::Result<()> {
        let (instants, frequencies) = self.series()?;
        samples::steepest_slope(&instants, &frequencies).put(self.out)
    }

    // `estimate_slant_range F0 SLOPE`: the range.
    fn estimate_slant_range(&mut self) -> io::Result<()> {
        let f0 = Hertz(self.words.double());
        let slope = self.words.double();
        samples::estimate_slant_range(f0, slope).0.put(self.out)
    }

    // `fit_satellite INSTANTS POSITIONS SAMPLES FREQUENCIES OX OY OZ F0 INSTANT TOLERANCE`: the refusal alone, or 0 and the report.
    fn fit_satellite(&mut self) -> io::Result<()> {
        let (instants, positions) = self.series()?;
        let (recorded, frequencies) = self.series()?;
        let observer = self.words.observer();
        let f0 = Hertz(self.words.double());
        let measured = Nanoseconds(self.words.whole());
        let tolerance = Seconds(self.words.double());
        orbit::fit_satellite(
            &instants,
            &positions,
            &recorded,
            &frequencies,
            Settings {
                observer,
                f0,
                tolerance,
            },
            measured,
        )
        .put(self.out)
    }

    // `pass INSTANTS POSITIONS SAMPLES FREQUENCIES OX OY OZ F0 TOLERANCE LENGTH LENGTH`: the refusal, or 0 and the report; the areas follow.
    fn pass(&mut self) -> io::Result<bool> {
        let Some(mut areas) = self.areas()? else {
            return Ok(false);
        };
        let (instants, positions) = self.series()?;
        let (recorded, frequencies) = self.series()?;
        let observer = self.words.observer();
        let f0 = Hertz(self.words.double());
        let tolerance = Seconds(self.words.double());
        orbit::pass(
            &instants,
            &positions,
            &recorded,
            &frequencies,
            Settings {
                observer,
                f0,
                tolerance,
            },
            &mut areas.instants,
            &mut areas.numbers,
        )
        .put(self.out)?;
        areas.put(self.out)?;
        Ok(self.words.has_left(2))
    }

    // `downsample_data INSTANTS FREQUENCIES LENGTH LENGTH`: the refusal, or 0 and the count; the areas follow.
    fn downsample_data(&mut self) -> io::Result<bool> {
        let Some(mut areas) = self.areas()? else {
            return Ok(false);
        };
        let (instants, frequencies) = self.series()?;
        samples::downsample_data(
            &instants,
            &frequencies,
            &mut areas.instants,
            &mut areas.numbers,
        )
        .put(self.out)?;
        areas.put(self.out)?;
        Ok(self.words.has_left(2))
    }

    // `read_sp3 FILE BYTES SATELLITE LEAP_SECONDS LENGTH LENGTH`: the refusal, or 0 and the count; the areas follow. Leap seconds that 16 bits do not hold are
    // none.
    fn read_sp3(&mut self) -> io::Result<bool> {
        let Some(mut areas) = self.areas()? else {
            return Ok(false);
        };
        let Some(file) = self.file()? else {
            areas.put(self.out)?;
            return Ok(false);
        };
        let satellite = satellite_of(self.words.word());
        let leap = LeapSeconds(i16::try_from(self.words.whole()).unwrap_or(0));
        sp3::read_sp3(
            &file,
            satellite,
            leap,
            &mut areas.instants,
            &mut areas.numbers,
        )
        .put(self.out)?;
        areas.put(self.out)?;
        Ok(self.words.has_left(2))
    }

    // `fleet_board ENTRIES`: the refusal alone, or 0 and the board's clock offset. Nothing is put where the words are no case of it.
    fn fleet_board(&mut self) -> io::Result<bool> {
        let Some(entries) = entries_of(self.alloc, &mut self.words)? else {
            return Ok(false);
        };
        board_of(&entries).put(self.out)?;
        Ok(true)
    }
}
