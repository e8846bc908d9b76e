//! The records that are asked with, a line each.
ghost use Rattle.std.specs.Prelude.{◌≡◌, ◌++◌, Some, IfSome, codes};
ghost use Rattle.roam_scrollback_stream.specs.ReadRequests.{counted_in, short_in, size_in, sized_in, terminal_in};
ghost use Rattle.roam_scrollback_stream.specs.Requests.{IsRequest, request_text};
ghost use Rattle.roam_scrollback_stream.specs.Runs.{bytes_after, terminal_of};
ghost use Rattle.roam_scrollback_stream.specs.declared.requests.Request.{Request as RequestOf};

use roam_tokens::{first_word, number};

/// How many terminals there may be at once.
pub const MOST_TERMINALS: usize = 1024;

/// The request of a line, for the terminal with a number below 1,024.
#[derive(Clone, Copy)]
pub enum Request {
    /// A new terminal, of so many rows and columns.
    Pane(u16, u16, u16),
    /// Another size, of so many rows and columns.
    Size(u16, u16, u16),
    /// Another size without cutting text, of so many rows and columns.
    Rewrap(u16, u16, u16),
    /// So many bytes follow, which its program wrote.
    Bytes(u16, u64),
    /// The rows of its screen are asked for.
    Screen(u16),
    /// It ends.
    Gone(u16),
}

impl Request {
    /// The number of the terminal that it is for.
    pub fn terminal(self) -> u16
        ensures terminal { result ≡ terminal_of self }
    {
        match self {
            Request::Pane(number, ..)
            | Request::Size(number, ..)
            | Request::Rewrap(number, ..)
            | Request::Bytes(number, _)
            | Request::Screen(number)
            | Request::Gone(number) => number,
        }
    }

    /// How many bytes follow its line.
    pub fn bytes_after(self) -> u64
        ensures count { result ≡ bytes_after self }
    {
        match self {
            Request::Bytes(_, count) => count,
            _ => 0,
        }
    }
}

// The number of 16 bits that a text writes.
fn short(text: &[u8]) -> Option<u16>
    ensures number { result ≡ short_in text.now }
{
    Some(number(text, 65_535)? as u16)
}

// The terminal that a text writes.
fn number_of(text: &[u8]) -> Option<u16>
    ensures number { result ≡ terminal_in text.now }
{
    Some(number(text, 1023)? as u16)
}

// Rows and columns.
fn size(text: &[u8]) -> Option<(u16, u16)>
    ensures size { result ≡ size_in text.now }
{
    let (rows, cols) = first_word(text)?;
    Some((short(rows)?, short(cols)?))
}

// A terminal with rows and columns.
fn sized(text: &[u8]) -> Option<(u16, u16, u16)>
    ensures sized { result ≡ sized_in text.now }
{
    let (number, rest) = first_word(text)?;
    let number = number_of(number)?;
    let (rows, cols) = size(rest)?;
    Some((number, rows, cols))
}

// A terminal, and how many bytes follow.
fn counted(text: &[u8]) -> Option<(u16, u64)>
    ensures counted { result ≡ counted_in text.now }
{
    let (first, count) = first_word(text)?;
    Some((number_of(first)?, number(count, u64::MAX)?))
}

// Reads the text behind `pane `.
fn behind_pane(text: &[u8]) -> Option<Request>
    ensures found { IfSome result (λ request. IsRequest request × (codes "pane " ++ text.now ≡ request_text request)) }
    ensures only { (request : RequestOf) → IsRequest request → codes "pane " ++ text.now ≡ request_text request → result ≡ Some request }
{
    let (number, rows, cols) = sized(text)?;
    Some(Request::Pane(number, rows, cols))
}

// Reads the text behind `size `.
fn behind_size(text: &[u8]) -> Option<Request>
    ensures found { IfSome result (λ request. IsRequest request × (codes "size " ++ text.now ≡ request_text request)) }
    ensures only { (request : RequestOf) → IsRequest request → codes "size " ++ text.now ≡ request_text request → result ≡ Some request }
{
    let (number, rows, cols) = sized(text)?;
    Some(Request::Size(number, rows, cols))
}

// Reads the text behind `rewrap `.
fn behind_rewrap(text: &[u8]) -> Option<Request>
    ensures found { IfSome result (λ request. IsRequest request × (codes "rewrap " ++ text.now ≡ request_text request)) }
    ensures only { (request : RequestOf) → IsRequest request → codes "rewrap " ++ text.now ≡ request_text request → result ≡ Some request }
{
    let (number, rows, cols) = sized(text)?;
    Some(Request::Rewrap(number, rows, cols))
}

// Reads the text behind `bytes `.
fn behind_bytes(text: &[u8]) -> Option<Request>
    ensures found { IfSome result (λ request. IsRequest request × (codes "bytes " ++ text.now ≡ request_text request)) }
    ensures only { (request : RequestOf) → IsRequest request → codes "bytes " ++ text.now ≡ request_text request → result ≡ Some request }
{
    let (number, count) = counted(text)?;
    Some(Request::Bytes(number, count))
}

// Reads the text behind `screen `.
fn behind_screen(text: &[u8]) -> Option<Request>
    ensures found { IfSome result (λ request. IsRequest request × (codes "screen " ++ text.now ≡ request_text request)) }
    ensures only { (request : RequestOf) → IsRequest request → codes "screen " ++ text.now ≡ request_text request → result ≡ Some request }
{
    Some(Request::Screen(number_of(text)?))
}

// Reads the text behind `gone `.
fn behind_gone(text: &[u8]) -> Option<Request>
    ensures found { IfSome result (λ request. IsRequest request × (codes "gone " ++ text.now ≡ request_text request)) }
    ensures only { (request : RequestOf) → IsRequest request → codes "gone " ++ text.now ≡ request_text request → result ≡ Some request }
{
    Some(Request::Gone(number_of(text)?))
}

/// Returns the request of a line without its LF; `None` if there is none.
pub fn request_of(line: &[u8]) -> Option<Request>
    // The result has this text.
    ensures found { IfSome result (λ request. IsRequest request × (line.now ≡ request_text request)) }
    // A request with this text is the result.
    ensures only { (request : RequestOf) → IsRequest request → line.now ≡ request_text request → result ≡ Some request }
{
    if let Some(text) = line.strip_prefix(b"pane ".as_slice()) {
        return behind_pane(text);
    }
    if let Some(text) = line.strip_prefix(b"size ".as_slice()) {
        return behind_size(text);
    }
    if let Some(text) = line.strip_prefix(b"rewrap ".as_slice()) {
        return behind_rewrap(text);
    }
    if let Some(text) = line.strip_prefix(b"bytes ".as_slice()) {
        return behind_bytes(text);
    }
    if let Some(text) = line.strip_prefix(b"screen ".as_slice()) {
        return behind_screen(text);
    }
    let text = line.strip_prefix(b"gone ".as_slice())?;
    behind_gone(text)
}
