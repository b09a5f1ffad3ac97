//! The lines of a script and of its answers.

ghost use Rattle.std.specs.Prelude.{◌≡◌, ◌∷◌, ◌+◌, ◌<◌, ◌≤◌, [], MatchOption, option_map};
ghost use Rattle.std.specs.List.{list_all};
ghost use Rattle.pcef_page.specs.Pairing.{filled, is_unanswered, is_padding};
ghost use Rattle.pcef_page.specs.private.Lines.{HasRoom, IsFirstLine, left, lines_left, size};

use memchr::memchr;

/// The most octets of a blank line: a longer one is at fault, and so has an answer.
const MAX_BLANK: usize = 262_144;

fn is_space(line: &[u8]) -> bool
    ensures { result ≡ list_all is_padding line.now }
{
    line.iter().all(|octet| *octet == b' ' || *octet == b'\t' || *octet == b'\r')
}

/// Whether a line gets no answer.
fn is_blank(line: &[u8]) -> bool
    ensures { result ≡ is_unanswered line.now }
{
    line.len() <= MAX_BLANK && is_space(line)
}

/// The first line, and what follows its line feed, if one ends it.
fn first_line(octets: &[u8]) -> (&[u8], Option<&[u8]>)
    ensures { IsFirstLine octets.now result.0.now (option_map (λ rest. rest.now) result.1) }
{
    let Some(place) = memchr(b'\n', octets) else {
        return (octets, None);
    };
    let (line, rest) = octets.split_at(place);
    (line, Some(rest.split_at(1).1))
}

/// A line that isn't blank.
#[derive(Clone, Copy)]
pub(crate) struct Filled<'a> {
    /// Its number, from 1 with blank lines counted.
    pub number: u64,
    /// Its octets.
    pub octets: &'a [u8],
}

/// Lines that are left to be read.
#[derive(Drop)]
pub(crate) struct Lines<'a> {
    /// What is left, or none behind the last line.
    pub rest: Option<&'a [u8]>,
    /// How many lines were read.
    pub before: u64,
}

impl<'a> Lines<'a> {
    /// All lines.
    pub(crate) fn of(octets: &'a [u8]) -> Lines<'a>
        ensures left { left result ≡ filled octets.now }
        ensures room { HasRoom result }
    {
        Lines {
            rest: Some(octets),
            before: 0,
        }
    }

    /// The next line, blank or not.
    fn next_line(&mut self) -> Option<&'a [u8]>
        requires { HasRoom self.old }
        ensures line { MatchOption result (lines_left self.old ≡ [])
            (λ line. lines_left self.old ≡ line.now ∷ lines_left self.new) }
        ensures number { MatchOption result (self.new ≡ self.old) (λ line. self.new.before ≡ self.old.before + 1) }
        ensures shorter { MatchOption result (self.new ≡ self.old) (λ line. size self.new < size self.old) }
        ensures room { HasRoom self.new }
    {
        let octets = self.rest?;
        let (line, rest) = first_line(octets);
        self.rest = rest;
        self.before += 1;
        Some(line)
    }

    /// The next line that isn't blank.
    pub(crate) fn next(&mut self) -> Option<Filled<'a>>
        requires { HasRoom self.old }
        ensures line { MatchOption result (left self.old ≡ [])
            (λ line. left self.old ≡ (line.number, line.octets.now) ∷ left self.new) }
        ensures shorter { MatchOption result (size self.new ≤ size self.old) (λ line. size self.new < size self.old) }
        ensures room { HasRoom self.new }
    {
        loop {
            let line = self.next_line()?;
            if !is_blank(line) {
                return Some(Filled {
                    number: self.before,
                    octets: line,
                });
            }
        }
    }
}
