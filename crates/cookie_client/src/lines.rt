//! The lines of the program's input.
ghost use Rattle.std.specs.Prelude.{◌≡◌, Some, option_map};
ghost use Rattle.cookie_client.specs.Lines.{lines_of, without_return};

use std::marker::Model;

/// The lines of a text, each without its newline and one carriage return at its end.
#[derive(Drop)]
pub(crate) struct Lines<'t> {
    rest: Option<&'t str>,
}

// Contracts see the lines that are left.
impl<'t> Model for Lines<'t> {
    ghost use Rattle.std.specs.Prelude.{ℕ, List, option_map};
    ghost use Rattle.cookie_client.specs.Lines.{lines_left};

    ghost Value = { List (List ℕ) };

    ghost view = { λ l. lines_left (option_map (λ t. t.now) l.rest) };
}

impl<'t> Lines<'t> {
    pub(crate) fn of(text: &'t str) -> Lines<'t>
        ensures { result ≡ lines_of text.now }
    {
        Lines { rest: Some(text) }
    }
}

// The line without one carriage return at its end.
fn without_return(line: &str) -> &str
    ensures { result.now ≡ without_return line.now }
{
    match line.strip_suffix('\r') {
        Some(line) => line,
        None => line,
    }
}

impl<'t> Iterator for Lines<'t> {
    ghost use Rattle.std.specs.Prelude.{length};
    ghost use Rattle.std.specs.Iterator.{item_count};
    ghost use Rattle.std.specs.Map.Iter.{TakesFirst};

    type Item = &'t str;

    ghost next_gives = { TakesFirst (λ l. l.now) };

    ghost remaining = { item_count (λ l. l) };

    fn next(&mut self) -> Option<&'t str> {
        let rest = self.rest?;
        match rest.split_once('\n') {
            Some((line, after)) => {
                self.rest = Some(after);
                Some(without_return(line))
            }
            None => {
                self.rest = None;
                Some(without_return(rest))
            }
        }
    }
}
