//! A line of data that makes a call.

/// A call, and what it has to return.
#[derive(Clone, Copy)]
pub struct Line<'t> {
    /// Whether it is made of what the line before left.
    pub goes_on: bool,
    /// The whole call, as it is written.
    pub text: &'t str,
    /// The calls that are made before it, if there are some.
    pub set_up: Option<&'t str>,
    /// The call and its words.
    pub call: &'t str,
    /// What it returns, and the pairs after it.
    pub wanted: &'t str,
    /// How often it compares two keys at most, if there is a bound.
    pub most: Option<u32>,
}

/// The call that a line makes, if it is one that does.
pub fn parse(text: &str) -> Option<Line<'_>> {
    let (call, answer) = text.split_once(" = ")?;
    let (wanted, bound) = answer.rsplit_once(" | ")?;
    let most = match bound {
        "*" => None,
        number => Some(number.parse().ok()?),
    };
    let text = call.strip_prefix("+ ").unwrap_or(call);
    let parts = text.rsplit_once("; ");
    Some(Line {
        goes_on: call.starts_with("+ "),
        text,
        set_up: parts.map(|(set_up, _)| set_up),
        call: parts.map_or(text, |(_, call)| call),
        wanted,
        most,
    })
}
