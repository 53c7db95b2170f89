//! The request lines of a script, one after another.
ghost use Rattle.std.specs.Prelude.{◌≡◌, ◌↔◌, ◌∷◌, [], ◌+◌, ◌<◌, ◌≤◌, ◌==◌, if◌then◌else◌};
ghost use Rattle.std.specs.Prelude.{length, drop, position, IsNone, IfSome};
ghost use Rattle.std.specs.List.{list_all};
ghost use Rattle.ufs_model.specs.Script.{LF, is_blank, is_request_line, request_lines, without_cr};

/// A request line of a text.
#[derive(Clone, Copy, Debug)]
pub struct NextLine<'a> {
    /// The line, without its end.
    pub line: &'a [u8],
    /// How many bytes of the text it takes, with what comes before it and its end.
    pub taken: usize,
}

/// Returns whether this is a space or a tab.
pub fn is_blank(byte: u8) -> bool
    ensures { result ≡ is_blank byte }
{
    byte == b' ' || byte == b'\t'
}

/// Returns the line without one CR at its end.
fn without_cr(line: &[u8]) -> &[u8]
    ensures { result.now ≡ without_cr line.now }
{
    line.strip_suffix(b"\r").unwrap_or(line)
}

/// Returns whether the line has only blanks.
fn is_blank_line(line: &[u8]) -> bool
    ensures { result ≡ list_all is_blank line.now }
{
    line.iter().all(|byte| is_blank(*byte))
}

/// Returns whether the line is neither blank nor a comment.
fn is_request_line(line: &[u8]) -> bool
    ensures { result ≡ is_request_line line.now }
{
    match line {
        [] | [b'#', ..] => false,
        _ => !is_blank_line(line),
    }
}

/// Returns the place of the first LF.
fn line_end(text: &[u8]) -> Option<usize>
    ensures { result ≡ position (λ c. c == LF) text.now }
{
    text.iter().position(|byte| *byte == b'\n')
}

/// Returns the first line of the text, a request line or not.
fn first_line(text: &[u8]) -> NextLine<'_>
    requires { 0 < length text.now }
    ensures line { request_lines text.now ≡ (if is_request_line result.line.now
        then result.line.now ∷ request_lines (drop result.taken text.now)
        else request_lines (drop result.taken text.now)) }
    ensures some { 0 < result.taken }
    ensures within { result.taken ≤ length text.now }
{
    match line_end(text) {
        Some(end) => NextLine {
            line: without_cr(&text[..end]),
            taken: end + 1,
        },
        None => NextLine {
            line: without_cr(text),
            taken: text.len(),
        },
    }
}

/// Returns the first request line of the text, or `None` if it has none.
pub fn next_line(text: &[u8]) -> Option<NextLine<'_>>
    ensures none { IsNone result ↔ (request_lines text.now ≡ []) }
    ensures line { IfSome result (λ next.
        request_lines text.now ≡ next.line.now ∷ request_lines (drop next.taken text.now)) }
    ensures some { IfSome result (λ next. 0 < next.taken) }
    ensures within { IfSome result (λ next. next.taken ≤ length text.now) }
{
    let mut start = 0;
    while start < text.len() {
        let first = first_line(&text[start..]);
        start += first.taken;
        if is_request_line(first.line) {
            return Some(NextLine {
                line: first.line,
                taken: start,
            });
        }
    }
    None
}
