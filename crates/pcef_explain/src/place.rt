//! Where a value stands in a line.

/// A step from a JSON value to one in it.
#[derive(Clone, Copy)]
pub(crate) enum Step<'a> {
    /// To a member of an object.
    Key(&'a str),
    /// To an item of a list, from 0.
    Item(usize),
}

/// The place of a value in a line, as `rule.filters[1].text`.
#[derive(Clone, Copy)]
pub(crate) struct Place<'a> {
    /// Whether it stands in the line's rule.
    pub is_in_rule: bool,
    /// The member of the line or of its rule.
    pub key: &'a str,
    /// The item of that member, from 0.
    pub item: Option<usize>,
    /// The member of that.
    pub inner: Option<&'a str>,
}

impl<'a> Place<'a> {
    /// A member of the line, or of its rule.
    pub(crate) fn new(is_in_rule: bool, key: &'a str) -> Place<'a> {
        Place {
            is_in_rule,
            key,
            item: None,
            inner: None,
        }
    }

    /// A member of the value at this place.
    pub(crate) fn member(self, name: &'a str) -> Place<'a> {
        Place {
            inner: Some(name),
            ..self
        }
    }

    /// The step of this number on the way to the place, from 0, if there is one.
    pub(crate) fn step(self, done: usize) -> Option<Step<'a>> {
        let mut done = done;
        if self.is_in_rule {
            if done == 0 {
                return Some(Step::Key("rule"));
            }
            done -= 1;
        }
        match (done, self.item, self.inner) {
            (0, _, _) => Some(Step::Key(self.key)),
            (1, Some(item), _) => Some(Step::Item(item)),
            (1, None, Some(inner)) | (2, Some(_), Some(inner)) => Some(Step::Key(inner)),
            _ => None,
        }
    }
}
