//! Dates that are read, printed and moved by days, and edited texts of dates. data/dates.tsv has the calls.
use cookie_date::{DateText, days_after, read_cookie_date, read_date};
use rows::{Answer, Player, Step, printed};

/// What plays the rows on dates.
#[derive(Clone, Copy)]
pub struct Dates;

impl Player for Dates {
    fn answer(&mut self, step: Step<'_>) -> Answer {
        match step.call {
            "read" => step.optional(read_date(&step.text()?)),
            "browser" => step.optional(read_cookie_date(&step.bytes()?)),
            "print" => date_text(step),
            "back" => step.optional(read_date(&date_text(step)?)),
            "add" => {
                let (days, start) = step.halves();
                let (days, start) = (days.words.parse().ok()?, start.words.parse().ok()?);
                step.printed(days_after(start, days))
            }
            "with" => with(step),
            "without" => shortened(step, &step.text()?, 1),
            "cut" => shortened(step, &step.text()?, usize::MAX),
            _ => None,
        }
    }
}

fn date_text(step: Step<'_>) -> Answer {
    printed(step.alloc, &DateText(step.words.parse().ok()?))
}

// Appends `KEY: DATE` if the text is read as a date with `new` in the place of some bytes from `place` on.
fn push_edited(
    list: &mut Vec<String>,
    key: &str,
    text: &str,
    place: usize,
    count: usize,
    new: &str,
) -> Option<()> {
    let alloc = *list.allocator();
    let front = text.get(..place)?;
    let back = text.get(place.saturating_add(count)..).unwrap_or("");
    let edited = format!(in alloc; "{front}{new}{back}").ok()?;
    match read_date(&edited) {
        Some(date) if edited.as_str() != text => {
            list.push(format!(in alloc; "{key}: {date}").ok()?).ok()
        }
        _ => Some(()),
    }
}

// What is read with each other character of ASCII in a place, or one of two bytes, or one of four, as in `5 | TEXT`.
fn with(step: Step<'_>) -> Answer {
    let (place, text) = step.halves();
    let (place, text) = (place.words.parse().ok()?, text.text()?);
    let mut list = Vec::new(step.alloc);
    for other in ('\0'..'\u{80}').chain(['\u{e9}', '\u{1f36a}']) {
        let other = step.printed(other)?;
        push_edited(&mut list, &other, &text, place, 1, &other)?;
    }
    step.list(&list)
}

// What is read if this number of bytes is left out, at each place.
fn shortened(step: Step<'_>, text: &str, count: usize) -> Answer {
    let mut list = Vec::new(step.alloc);
    for place in 0..text.len() {
        push_edited(&mut list, &step.printed(place)?, text, place, count, "")?;
    }
    step.list(&list)
}
