use crate::step::{Answer, Player, Step};
use std::alloc::{AllocError, Global};

/// A step that returned another text than the one that it has to, and what it returned.
pub type Wrong<'t> = (Step<'t>, Answer);

/// A row: what it shows, which players it isn't for, and its steps.
#[derive(Drop)]
pub struct Row<'t> {
    /// What it shows.
    pub title: &'t str,
    /// `-`, or the players that it isn't for, and why, as in `c python: they have no such call`.
    not_for: &'t str,
    /// Its steps, in order.
    pub steps: Vec<Step<'t>>,
}

impl<'t> Row<'t> {
    /// Whether this program plays it.
    pub fn is_for_rust(&self) -> bool {
        let (players, _) = self.not_for.split_once(':').unwrap_or((self.not_for, ""));
        players.split(' ').all(|player| player != "rattle")
    }

    /// The first step that is wrong, if one is. Without a player it is the first one.
    pub fn wrong<P: Player + Drop>(&self, mut player: Option<P>) -> Option<Wrong<'t>> {
        for &step in &self.steps {
            let came = match &mut player {
                Some(player) => player.answer(step),
                None => None,
            };
            if came.as_deref() != Some(step.wanted) {
                return Some((step, came));
            }
        }
        None
    }
}

/// The rows of a file. A row's line has its title, its source, the players that it isn't for, and steps, with tabs
/// between them. A line that begins with a tab has more steps of the row above it. A line that begins with `#` is a
/// comment.
pub fn read_rows<'t>(alloc: Global, text: &'t str) -> Result<Vec<Row<'t>>, AllocError> {
    let mut rows: Vec<Row<'t>> = Vec::new(alloc);
    for (place, text) in text.lines().enumerate() {
        if text.is_empty() || text.starts_with('#') {
            continue;
        }
        let mut columns = text.split('\t');
        let title = columns.next().unwrap_or("");
        if !title.is_empty() {
            rows.push(Row {
                title,
                not_for: columns.nth(1).unwrap_or(""),
                steps: Vec::new(alloc),
            })?;
        }
        if let Some(row) = rows.last_mut() {
            for column in columns {
                let line = place.saturating_add(1);
                row.steps.push(Step::parse(alloc, line, column))?;
            }
        }
    }
    Ok(rows)
}
