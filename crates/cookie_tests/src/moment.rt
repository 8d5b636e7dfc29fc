use jiff::civil::DateTime;

// The time of most tests, 2015-10-21 07:28:00 in UTC.
pub fn moment() -> DateTime {
    DateTime::constant(2015, 10, 21, 7, 28, 0, 0)
}
