//! The members of a vector.

/// A vector: a line of JSON whose members are texts, numbers and lists of numbers.
#[derive(Clone, Copy)]
pub(crate) struct Vector<'a>(pub(crate) &'a str);

impl<'a> Vector<'a> {
    /// A member: a text without its quotes, a number, or a list without its brackets.
    pub(crate) fn get(self, name: &str) -> Option<&'a str> {
        let mut is_next = false;
        // Every second part is a text.
        for part in self.0.split('"') {
            match part.strip_prefix(": ") {
                Some("") => {}
                Some(number) if is_next => {
                    return Some(number.trim_matches(|sign| matches!(
                        sign,
                        '[' | ']' | '}' | ',' | ' '
                    )));
                }
                _ if is_next => return Some(part),
                _ => is_next = part == name,
            }
        }
        None
    }

    /// A member that is a number. It is 0 if there is none.
    pub(crate) fn number(self, name: &str) -> Option<u64> {
        self.get(name).unwrap_or("0").parse().ok()
    }
}
