//! AES31 time code at 48,000 samples per second: the text `hh.mm.ss.ff/rrrr` and the number of samples since midnight.
//!
//! A day has 4,147,200,000 samples. A second has 24, 25 or 30 frames of 2000, 1920 or 1600 samples, so the last field,
//! the remainder, ranges from 0000 to 1999, 1919 or 1599. Each of the four separators is one of `:`, `;`, `.`, `,`,
//! `|`, `=` and `/`; any further meaning of a separator is ignored. The end of the day, 24 hours with all other fields
//! zero, is also a valid time.
#![tactic(auto)]

ghost use Rattle.std.specs.Prelude.{◌≡◌, ◌≤◌, ◌<◌, ◌+◌, ◌/◌, ◌%◌, [], ◌∷◌, SomeIff, IsTrue, IfSome};
ghost use Rattle.sampletime.specs.FrameRate.{frames_per_second};
ghost use Rattle.sampletime.specs.TimeCode as time_code;
ghost use Rattle.sampletime.specs.TimeCode.{day, are_separators, default_separators, frame_samples, samples_of, samples_of_parts, is_in_day, text_of, text_of_parts, time_of_parts};

mod frame_rate;

pub use frame_rate::Rate;
use std::marker::Model;

const SAMPLES_PER_SECOND: u64 = 48_000;

const SAMPLES_PER_DAY: u64 = 24 * 60 * 60 * SAMPLES_PER_SECOND;

/// A time of day or a duration of at most one day, in samples at 48,000 per second: 0 to [`SampleTime::DAY`].
#[derive(Clone, Copy, Debug, PartialEq, Eq, PartialOrd, Ord)]
pub struct SampleTime {
    samples: u64,
}

impl Model for SampleTime {
    ghost use Rattle.std.specs.Prelude.{ℕ, ◌≤◌};
    ghost use Rattle.sampletime.specs.TimeCode.{day};

    ghost Value = { ℕ };

    ghost view = { λ t. t.samples };

    ghost invariant = { λ t. t.samples ≤ day };

    ghost inverse = { λ n. record { samples = n } };
}

impl SampleTime {
    /// Midnight, the start of the day.
    pub const ZERO: SampleTime = SampleTime { samples: 0 };

    /// The end of the day, 24 hours.
    pub const DAY: SampleTime = SampleTime {
        samples: SAMPLES_PER_DAY,
    };

    /// Creates a time from a number of samples, or returns `None` if the number exceeds one day.
    pub fn new(samples: u64) -> Option<Self>
        ensures { SomeIff result (samples ≤ day) samples }
    {
        if samples <= SAMPLES_PER_DAY {
            Some(SampleTime { samples })
        } else {
            None
        }
    }

    /// Returns the number of samples, 0 to 4,147,200,000.
    pub fn get(self) -> u64
        ensures samples { result ≡ self }
        ensures in_day { result ≤ day }
    {
        self.samples
    }
}

/// The four separators of a time text, in their order in the text.
#[derive(Clone, Copy, Debug, PartialEq, Eq)]
pub struct Separators {
    bytes: [u8; 4],
}

impl Model for Separators {
    ghost use Rattle.std.specs.Prelude.{List, ℕ, IsTrue};
    ghost use Rattle.sampletime.specs.TimeCode.{are_separators};

    ghost Value = { List ℕ };

    ghost view = { λ s. s.bytes };

    ghost invariant = { λ s. IsTrue (are_separators s.bytes) };

    ghost inverse = { λ l. record { bytes = l } };
}

impl Separators {
    /// The separators of `00.00.00.00/0000`.
    pub const DEFAULT: Separators = Separators { bytes: *b".../" };

    /// Creates separators from four bytes, or returns `None` if a byte isn't one of `:`, `;`, `.`, `,`, `|`, `=` and
    /// `/`.
    #[inline(always)]
    pub fn new(bytes: [u8; 4]) -> Option<Self>
        ensures { SomeIff result (IsTrue (are_separators bytes)) bytes }
    {
        let [a, b, c, d] = bytes;
        if is_separator(a) && is_separator(b) && is_separator(c) && is_separator(d) {
            Some(Separators { bytes })
        } else {
            None
        }
    }

    /// Returns the separators as four bytes.
    pub fn bytes(self) -> [u8; 4]
        ensures bytes { result ≡ self }
        ensures separators { IsTrue (are_separators result) }
    {
        self.bytes
    }
}

impl Default for Separators {
    ghost is_default = { λ s. s ≡ default_separators };

    fn default() -> Self {
        Self::DEFAULT
    }
}

/// Returns true if the byte can separate two fields.
fn is_separator(byte: u8) -> bool
    ensures { result ≡ time_code.is_separator byte }
{
    matches!(byte, b':' | b';' | b'.' | b',' | b'|' | b'=' | b'/')
}

/// Parses two ASCII digits, 0 to 99.
fn two_digits(digits: [u8; 2]) -> Option<u8>
    ensures { result ≡ time_code.two_digits digits }
{
    let [tens, ones] = digits;
    if tens.is_ascii_digit() && ones.is_ascii_digit() {
        Some((tens - b'0') * 10 + (ones - b'0'))
    } else {
        None
    }
}

/// Parses four ASCII digits, 0 to 9999.
#[inline(always)]
fn four_digits(digits: [u8; 4]) -> Option<u16>
    ensures { result ≡ time_code.four_digits digits }
{
    let [a, b, c, d] = digits;
    let hundreds = two_digits([a, b])?;
    let ones = two_digits([c, d])?;
    Some(u16::from(hundreds) * 100 + u16::from(ones))
}

/// Returns the two ASCII digits of a number below 100.
fn digits_of_two(number: u8) -> [u8; 2]
    requires { number < 100 }
    ensures { result ≡ (48 + number / 10) ∷ (48 + number % 10) ∷ [] }
{
    [b'0' + number / 10, b'0' + number % 10]
}

/// Returns the four ASCII digits of a number below 10000.
fn digits_of_four(number: u16) -> [u8; 4]
    requires { number < 10000 }
    ensures { result ≡ (48 + number / 1000) ∷ (48 + number / 100 % 10) ∷ (48 + number / 10 % 10) ∷ (48 + number % 10)
        ∷ [] }
{
    let [a, b] = digits_of_two((number / 100) as u8);
    let [c, d] = digits_of_two((number % 100) as u8);
    [a, b, c, d]
}

/// The fields of a time text: hours, minutes, seconds, frames, and the remainder in samples.
#[derive(Clone, Copy)]
struct Parts {
    hours: u8,
    minutes: u8,
    seconds: u8,
    frames: u8,
    remainder: u16,
}

impl Parts {
    /// Splits a time into its fields.
    fn of(time: SampleTime, rate: Rate) -> Self
        ensures hours { result.hours ≡ time / 172800000 }
        ensures minutes { result.minutes ≡ time / 2880000 % 60 }
        ensures seconds { result.seconds ≡ time / 48000 % 60 }
        ensures frames { result.frames ≡ time / frame_samples (frames_per_second rate) % frames_per_second rate }
        ensures remainder { result.remainder ≡ time % frame_samples (frames_per_second rate) }
        ensures few_frames { result.frames ≤ 29 }
        ensures few_samples { result.remainder ≤ 1999 }
        ensures in_day { time ≤ day }
    {
        let samples = time.get();
        let seconds = samples / SAMPLES_PER_SECOND;
        Parts {
            hours: (seconds / 3600) as u8,
            minutes: (seconds / 60 % 60) as u8,
            seconds: (seconds % 60) as u8,
            frames: rate.frame_in_second(samples),
            remainder: rate.remainder_of(samples),
        }
    }

    /// Returns the time, or `None` if a field exceeds its limit or the time is after the end of the day.
    #[inline(always)]
    fn time(self, rate: Rate) -> Option<SampleTime>
        ensures time { SomeIff result
            (IsTrue (is_in_day (frames_per_second rate) self.hours self.minutes self.seconds self.frames self.remainder))
            (samples_of_parts (frames_per_second rate) self.hours self.minutes self.seconds self.frames
            self.remainder) }
        ensures in_day { IfSome result (λ time. time ≤ day) }
    {
        if self.minutes < 60
            && self.seconds < 60
            && self.frames < rate.frames_per_second()
            && self.remainder < rate.samples_per_frame()
        {
            let minutes = u64::from(self.hours) * 60 + u64::from(self.minutes);
            let seconds = minutes * 60 + u64::from(self.seconds);
            let frames = rate.samples_of_frames(self.frames);
            SampleTime::new(seconds * SAMPLES_PER_SECOND + frames + u64::from(self.remainder))
        } else {
            None
        }
    }

    /// Returns the time and the separators, or `None` if either is invalid.
    #[inline(always)]
    fn parted_by(self, separators: [u8; 4], rate: Rate) -> Option<(SampleTime, Separators)>
        ensures value { result ≡ time_of_parts (frames_per_second rate) (Some self.hours) (Some self.minutes) (Some self.seconds)
            (Some self.frames) (Some self.remainder) separators }
        ensures in_day { IfSome result (λ p. p.0 ≤ day) }
    {
        let time = self.time(rate)?;
        let separators = Separators::new(separators)?;
        Some((time, separators))
    }

    /// Formats the fields, each below 100 and the remainder below 10000, as a time text.
    fn text(self, separators: Separators) -> [u8; 16]
        requires hours { self.hours < 100 }
        requires minutes { self.minutes < 100 }
        requires seconds { self.seconds < 100 }
        requires frames { self.frames < 100 }
        requires remainder { self.remainder < 10000 }
        ensures text { result ≡ text_of_parts self.hours self.minutes self.seconds self.frames self.remainder
            separators }
        ensures separators { IsTrue (are_separators separators) }
    {
        let [a, b, c, d] = separators.bytes();
        let [h, h2] = digits_of_two(self.hours);
        let [m, m2] = digits_of_two(self.minutes);
        let [s, s2] = digits_of_two(self.seconds);
        let [f, f2] = digits_of_two(self.frames);
        let [r, r2, r3, r4] = digits_of_four(self.remainder);
        [h, h2, a, m, m2, b, s, s2, c, f, f2, d, r, r2, r3, r4]
    }
}

/// Parses a 16-byte time text `hh.mm.ss.ff/rrrr` with any four separators at the given frame rate.
///
/// Hours are 00 to 23, minutes and seconds 00 to 59; the frame number is less than the frame rate, and the remainder is
/// less than the number of samples per frame (2000, 1920 or 1600). The end of the day, 24 hours with all other fields
/// zero, is accepted too. Returns `None` for any other text: an excess is never carried into the next field.
#[inline(always)]
pub fn parse_time(text: &[u8], rate: Rate) -> Option<(SampleTime, Separators)>
    ensures value { result ≡ samples_of (frames_per_second rate) text.now }
    ensures in_day { IfSome result (λ p. p.0 ≤ day) }
    ensures again { IfSome result (λ p. text.now ≡ text_of (frames_per_second rate) p.0 p.1) }
{
    match text {
        &[h, h2, a, m, m2, b, s, s2, c, f, f2, d, r, r2, r3, r4] => parse_fields(
            [h, h2],
            [m, m2],
            [s, s2],
            [f, f2],
            [r, r2, r3, r4],
            [a, b, c, d],
            rate,
        ),
        _ => None,
    }
}

/// Parses the digits of the fields of a time text.
#[inline(always)]
fn parse_fields(
    hours: [u8; 2],
    minutes: [u8; 2],
    seconds: [u8; 2],
    frames: [u8; 2],
    remainder: [u8; 4],
    separators: [u8; 4],
    rate: Rate,
) -> Option<(SampleTime, Separators)>
    ensures value { result ≡ time_of_parts (frames_per_second rate) (time_code.two_digits hours) (time_code.two_digits minutes)
        (time_code.two_digits seconds) (time_code.two_digits frames) (time_code.four_digits remainder) separators }
    ensures in_day { IfSome result (λ p. p.0 ≤ day) }
{
    let parts = Parts {
        hours: two_digits(hours)?,
        minutes: two_digits(minutes)?,
        seconds: two_digits(seconds)?,
        frames: two_digits(frames)?,
        remainder: four_digits(remainder)?,
    };
    parts.parted_by(separators, rate)
}

/// Formats a time at the given frame rate as a 16-byte time text with these separators. [`parse_time`] parses it back
/// to both.
#[tactic(auto, using(crate::proofs::RoundTrip::time_is_again))]
pub fn text_of(time: SampleTime, separators: Separators, rate: Rate) -> [u8; 16]
    ensures text { result ≡ text_of (frames_per_second rate) time separators }
    ensures again { samples_of (frames_per_second rate) result ≡ Some (time, separators) }
{
    Parts::of(time, rate).text(separators)
}
