// The units of the ship clock, each a type of its own with one field, so that kilometres cannot stand where metres are meant;
// the records of three, which are three types and not one with a parameter, so that an observer cannot stand where a position is meant; the single
// numbers that fit and pass share; spans of time and the speed of light by name. An ECEF coordinate is earth-centred and earth-fixed. The units have
// C's layout, since the exports take them.
#![tactic(auto)]

// A length in metres.
#[repr(C)]
#[derive(Clone, Copy)]
pub struct Metres(pub f64);

// A time in seconds.
#[repr(C)]
#[derive(Clone, Copy)]
pub struct Seconds(pub f64);

// A frequency in hertz.
#[repr(C)]
#[derive(Clone, Copy)]
pub struct Hertz(pub f64);

// An instant, or a time, as a count of nanoseconds; of an instant, since 1970-01-01 without leap seconds.
#[repr(C)]
#[derive(Clone, Copy)]
pub struct Nanoseconds(pub i64);

// A count of leap seconds: how far GPS time is ahead of UTC.
#[repr(C)]
#[derive(Clone, Copy)]
pub struct LeapSeconds(pub i16);

// A satellite's ECEF position, in metres.
#[derive(Clone, Copy)]
pub struct Position {
    pub x: f64,
    pub y: f64,
    pub z: f64,
}

// A satellite's ECEF velocity, in metres for each second.
#[derive(Clone, Copy)]
pub struct Velocity {
    pub x: f64,
    pub y: f64,
    pub z: f64,
}

// Where the receiver stands, ECEF.
#[derive(Clone, Copy)]
pub struct Observer {
    pub x: Metres,
    pub y: Metres,
    pub z: Metres,
}

// The single numbers that fit and pass both take: where the receiver stands, in metres, the centre frequency, in hertz, and by how many seconds a gap of
// an even window may be off the mean gap.
#[derive(Clone, Copy)]
pub struct Settings {
    pub observer: Observer,
    pub f0: Hertz,
    pub tolerance: Seconds,
}

// Nanoseconds in a second.
pub const SECOND: i64 = 1_000_000_000;

// Nanoseconds in a millisecond.
pub const MILLISECOND: i64 = 1_000_000;

// Nanoseconds in a microsecond.
pub const MICROSECOND: i64 = 1_000;

// The speed of light, in metres for each second.
pub const LIGHT_SPEED: f64 = 299792458.0;

// Milliseconds in a second, as a double.
pub const SECOND_MILLISECONDS: f64 = 1000.0;

// Microseconds in a second, as a double.
pub const SECOND_MICROSECONDS: f64 = 1000000.0;
