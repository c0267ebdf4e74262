// A number read from a text that is its columns.
ghost use Rattle.std.specs.Prelude.{◌≡◌, ◌^◌, ◌-◌, ◌≤◌, ◌<◌, length};
ghost use Rattle.decimal.specs.Reading.{most_columns, after_blanks, digits_behind, some_digits, signed_digits, whole_of, decimal_of};

// A number by its sign and its digits, the point left out.
#[derive(Clone, Copy, Debug, PartialEq, Eq)]
pub struct Number {
    pub negative: bool,
    pub digits: u64,
}

// More columns than this hold no number.
const MOST_COLUMNS: usize = 18;

// A text of at most 18 columns: any 18 digits fit 64 bits, with their sign too.
#[derive(Clone, Copy)]
struct Columns<'a> {
    text: &'a [u8],
    ghost few: { length text.now ≤ most_columns },
}

impl Columns<'_> {
    // What is left of it behind the blanks at its front.
    fn after_blanks(self) -> Self
        ensures { result.text.now ≡ after_blanks self.entry.text.now }
    {
        let blanks = self
            .text
            .iter()
            .position(|b| *b != b' ')
            .unwrap_or(self.text.len());
        Columns {
            text: &self.text[blanks..],
        }
    }

    // The number whose digits are those of `before` and then all of it, which has nothing else.
    fn digits_behind(self, before: Number) -> Option<Number>
        requires room { before.digits < 10 ^ (most_columns - length self.text.now) }
        ensures { result ≡ digits_behind before.negative before.digits self.entry.text.now }
    {
        let mut digits = before.digits;
        for b in self.text {
            if !b.is_ascii_digit() {
                return None;
            }
            digits = digits * 10 + u64::from(*b - b'0');
        }
        Some(Number { digits, ..before })
    }

    // One or more digits.
    #[tactic(auto, using(crate::proofs::Bytes::some_first, crate::proofs::Bytes::some_none, crate::proofs::Bounds::ten_pos))]
    fn some_digits(self, negative: bool) -> Option<Number>
        ensures { result ≡ some_digits negative self.entry.text.now }
    {
        if self.text.is_empty() {
            return None;
        }
        self.digits_behind(Number {
            negative,
            digits: 0,
        })
    }

    // Perhaps a minus, where `signed` says that there may be one, and one or more digits.
    #[tactic(auto, using(crate::proofs::Bytes::minus_first, crate::proofs::Bytes::minus_none, crate::proofs::Bytes::unsigned))]
    fn signed_digits(self, signed: bool) -> Option<Number>
        ensures { result ≡ signed_digits signed self.entry.text.now }
    {
        match self.text.strip_prefix(b"-") {
            Some(text) if signed => Columns { text }.some_digits(true),
            _ => self.some_digits(false),
        }
    }
}

// The whole number that a text shows: blanks, perhaps a minus where `signed`, and digits.
pub fn whole_of(text: &[u8], signed: bool) -> Option<Number>
    ensures { result ≡ whole_of signed text.now }
{
    if text.len() > MOST_COLUMNS {
        return None;
    }
    Columns { text }.after_blanks().signed_digits(signed)
}

// The number that a text shows with its point at a place: such a whole number before it, and only decimals behind it.
#[tactic(auto, using(crate::proofs::Pointed::past, crate::proofs::Pointed::no_whole, crate::proofs::Pointed::no_point, crate::proofs::Pointed::pointed, crate::proofs::Pointed::room))]
pub fn decimal_of(text: &[u8], point: usize, signed: bool) -> Option<Number>
    ensures { result ≡ decimal_of signed point text.now }
{
    if text.len() > MOST_COLUMNS {
        return None;
    }
    let (whole, rest) = text.split_at_checked(point)?;
    let before = whole_of(whole, signed)?;
    let decimals = rest.strip_prefix(b".")?;
    Columns { text: decimals }.digits_behind(before)
}
