// The text of times.
ghost use Rattle.std.specs.Prelude.{◌≡◌, ℕ, List, ◌<◌, ◌≤◌, ◌+◌, ◌-◌, ◌*◌, ◌/◌, ◌%◌, length, decimal, Option, Some, IfSome};
ghost use Rattle.std.specs.Option.{option_map};
ghost use Rattle.vms_model.specs.Words.{among};
ghost use Rattle.vms_model.specs.Times.{day_after as day_after_of, two_digits as two_digits_of, name_at, month_names, clock_text, time_text, CanBeWritten, CanBeRead, MomentSaid, digits_said, day_said, months, date_said, clock_said, day_number as day_number_of, time_said};
ghost use Rattle.vms_times.specs.Times.{time_of, day_of};

use jiff::civil::Date;
use jiff_core::civil;
use std::marker::Model;
use thiserror::Error;
use vms_base::{Moment, Short, find, part_at, read_digits};

/// Why a text is no moment.
#[derive(Clone, Copy, Debug, PartialEq, Eq, Drop, Error)]
pub enum TimeErr {
    #[error("a time has the form dd-mmm-yyyy hh:mm:ss.cc")]
    Form = 1,
    #[error("the day is not one of the calendar from 17-NOV-1858 to 31-DEC-8999")]
    Range = 2,
}

const MONTHS: [(&[u8], u8); 12] = [
    (b"JAN", 1),
    (b"FEB", 2),
    (b"MAR", 3),
    (b"APR", 4),
    (b"MAY", 5),
    (b"JUN", 6),
    (b"JUL", 7),
    (b"AUG", 8),
    (b"SEP", 9),
    (b"OCT", 10),
    (b"NOV", 11),
    (b"DEC", 12),
];

fn read_month(text: &[u8]) -> Option<u8>
    ensures value { result ≡ among months text.now }
    ensures within { IfSome result (λ m. (1 ≤ m) × (m ≤ 12)) }
{
    find(&MONTHS, text)
}

fn read_exactly(many: usize, limit: u64, text: &[u8]) -> Option<u64>
    ensures value { result ≡ digits_said many limit text.now }
    ensures within { IfSome result (λ n. n ≤ limit) }
{
    if text.len() == many {
        read_digits(limit, text)
    } else {
        None
    }
}

fn read_day(text: &[u8]) -> Option<u64>
    ensures value { result ≡ day_said text.now }
    ensures within { IfSome result (λ n. n ≤ 99) }
{
    if text.len() == 1 {
        read_digits(99, text)
    } else {
        read_exactly(2, 99, text)
    }
}

fn read_date(text: &[u8]) -> Option<(u64, u8, u64)>
    ensures value { result ≡ date_said text.now }
    ensures within { IfSome result (λ d. (d.0 ≤ 9999) × (1 ≤ d.1) × (d.1 ≤ 12) × (d.2 ≤ 99)) }
{
    let (day_text, rest) = part_at(b'-', text)?;
    let (month_text, year_text) = part_at(b'-', rest)?;
    let day = read_day(day_text)?;
    let month = read_month(month_text)?;
    let year = read_exactly(4, 9999, year_text)?;
    Some((year, month, day))
}

fn read_clock(text: &[u8]) -> Option<u64>
    ensures value { result ≡ clock_said text.now }
    ensures within { IfSome result (λ n. n < 8640000) }
{
    let (hour, rest) = part_at(b':', text)?;
    let (minute, rest) = part_at(b':', rest)?;
    let (second, part) = part_at(b'.', rest)?;
    let hour = read_exactly(2, 23, hour)?;
    let minute = read_exactly(2, 59, minute)?;
    let second = read_exactly(2, 59, second)?;
    let part = read_exactly(2, 99, part)?;
    Some(((hour * 60 + minute) * 60 + second) * 100 + part)
}

fn day_number(year: u64, month: u8, day: u64) -> Option<u32>
    requires year { year ≤ 9999 }
    requires month { (1 ≤ month) × (month ≤ 12) }
    requires day { day ≤ 99 }
    ensures value { result ≡ day_number_of year month day }
    ensures within { IfSome result (λ n. n < 4000000) }
{
    if year > 8999 {
        return None;
    }
    match Date::new(year as i16, month as i8, day as i8) {
        Ok(date) => {
            let days = date.to_plain().days_since_min();
            if days < 4_331_000 {
                None
            } else {
                Some(days - 4_331_000)
            }
        }
        Err(_) => None,
    }
}

/// The moment of a text `dd-mmm-yyyy hh:mm:ss.cc`: the day in one or two digits, the month in English in either case of letters.
///
/// `Form` where the text has not this form, `Range` where it names no day of the calendar from 17-NOV-1858 to 31-DEC-8999.
#[tactic(auto, unfolding(vms_model::specs::Times::time_said))]
pub fn read_time(text: &[u8]) -> Result<Moment, TimeErr>
    ensures { time_of result ≡ time_said text.now }
{
    let Some((date_text, clock_text)) = part_at(b' ', text) else {
        return Err(TimeErr::Form);
    };
    let Some((year, month, day)) = read_date(date_text) else {
        return Err(TimeErr::Form);
    };
    let Some(clock) = read_clock(clock_text) else {
        return Err(TimeErr::Form);
    };
    match day_number(year, month, day) {
        Some(days) => Ok(Moment(u64::from(days) * 8_640_000 + clock)),
        None => Err(TimeErr::Range),
    }
}

// A day of the calendar from 17-NOV-1858 on.
#[derive(Clone, Copy, Drop)]
struct CalendarDay {
    year: u16,
    month: u8,
    day: u8,
}

// The day that comes so many days after 17-NOV-1858.
fn day_after(days: u32) -> CalendarDay
    requires { days < 2973484 }
    ensures value { day_of result ≡ day_after_of days }
    ensures year { result.year ≤ 9999 }
    ensures month { (1 ≤ result.month) × (result.month ≤ 12) }
    ensures day { (1 ≤ result.day) × (result.day ≤ 31) }
{
    let date = civil::Date::from_days_since_min(days + 4_331_000);
    CalendarDay {
        year: date.year as u16,
        month: date.month,
        day: date.day,
    }
}

fn digit(n: u32) -> u8
    requires { n < 10 }
    ensures { result ≡ 48 + n }
{
    b'0' + n as u8
}

fn two_digits(n: u32) -> [u8; 2]
    requires { n < 100 }
    ensures { result ≡ two_digits_of n }
{
    [digit(n / 10), digit(n % 10)]
}

fn month_name(month: u8) -> &'static [u8]
    requires { (1 ≤ month) × (month ≤ 12) }
    ensures value { result.now ≡ name_at (month - 1) month_names }
    ensures length { length result.now ≡ 3 }
{
    MONTHS[month as usize - 1].0
}

// The number of a day of the month.
fn day_digits(day: u8) -> Short<2>
    requires { day ≤ 31 }
    ensures { result ≡ decimal day }
{
    let day = u32::from(day);
    if day < 10 {
        Short::from_slice(&[digit(day)])
    } else {
        Short::from_slice(&two_digits(day))
    }
}

// Hours, minutes, seconds and hundredths since midnight.
fn clock_digits(t: u32) -> [u8; 11]
    requires { t < 8640000 }
    ensures { result ≡ clock_text t }
{
    let h = two_digits(t / 360_000);
    let m = two_digits(t / 6000 % 60);
    let s = two_digits(t / 100 % 60);
    let c = two_digits(t % 100);
    [
        h[0], h[1], b':', m[0], m[1], b':', s[0], s[1], b'.', c[0], c[1],
    ]
}

/// The text of a moment, of at most 23 bytes.
#[derive(Clone, Copy, Debug, PartialEq, Eq, Drop)]
pub struct TimeText {
    text: Short<23>,
}

impl Model for TimeText {
    ghost Value = { List ℕ };

    ghost view = { λ t. t.text };

    ghost inverse = { λ bytes. record { text = bytes } };
}

impl TimeText {
    /// The text's bytes.
    pub fn bytes(&self) -> &[u8]
        ensures value { result.now ≡ self.now }
        ensures few { length self.now ≤ 23 }
    {
        self.text.bytes()
    }
}

/// The text of a moment up to 31-DEC-9999 23:59:59.99: the day without a leading zero, the month in capitals.
#[tactic(auto, unfolding(vms_model::specs::Times::time_text))]
pub fn write_time(m: Moment) -> TimeText
    requires { CanBeWritten m.0 }
    ensures { result ≡ time_text m.0 }
{
    let day = day_after((m.0 / 8_640_000) as u32);
    let century = two_digits(u32::from(day.year / 100));
    let year = two_digits(u32::from(day.year % 100));
    let mut text = Short::new();
    text.extend(day_digits(day.day).bytes());
    text.push(b'-');
    text.extend(month_name(day.month));
    text.push(b'-');
    text.extend(&century);
    text.extend(&year);
    text.push(b' ');
    text.extend(&clock_digits((m.0 % 8_640_000) as u32));
    TimeText { text }
}

/// The text of a moment is read as that moment, up to the last that a text may name.
pub fn written_times_are_read()
    ensures { (moment : ℕ) → CanBeRead moment → time_said (time_text moment) ≡ MomentSaid moment }
{}
