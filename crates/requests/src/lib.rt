// The requests of the high-resolution head (PEM-H), to and from words (source document 000, section 4.2; document 02, request P5).
#![tactic(auto)]

pub mod table;

ghost use Rattle.std.specs.Prelude.{◌≡◌, ◌==◌, ◌<◌, ◌≤◌, drop, length, Ok};
ghost use Rattle.std.specs.List.{list_any};
ghost use Rattle.requests.specs.Rows.{first_from};
ghost use Rattle.requests.specs.Codec.{refused_of, decode_of, encode_of, error_number, meaning_number, meaning_request, meaning_value, encoded_number, finding_number, encoding_number};

use table::{REQUESTS, Row, table};

// What a word means: a request with its value, or several requests that share the word, of which the first is named.
#[derive(Clone, Copy, Debug, PartialEq, Eq)]
pub enum Meaning {
    One { request: u8, value: u16 },
    Shared { first: u8, value: u16 },
}

// Why a word means nothing, or a request has no word.
#[derive(Clone, Copy, Debug, PartialEq, Eq)]
pub enum RequestError {
    Unknown,
    // The value is none that the request allows.
    OutOfRange,
}

// What is added to the number of the first request where several share the word.
const SHARED: u16 = 128;

impl Meaning {
    // The number of the request, or of what is shared.
    pub fn request(self) -> u16
        ensures value { result ≡ meaning_request (Ok self) }
        ensures upper_bound { result < 384 }
    {
        match self {
            Meaning::One { request, value: _ } => u16::from(request),
            Meaning::Shared { first, value: _ } => SHARED + u16::from(first),
        }
    }

    pub fn value(self) -> u16
        ensures { result ≡ meaning_value (Ok self) }
    {
        match self {
            Meaning::One { request: _, value } => value,
            Meaning::Shared { first: _, value } => value,
        }
    }
}

impl RequestError {
    // Request P5's number.
    pub fn number(self) -> u8
        ensures { result ≡ error_number self }
    {
        match self {
            RequestError::Unknown => 43,
            RequestError::OutOfRange => 44,
        }
    }
}

// The first row from a place on that has this word; past the table where there is none.
fn first_from(rows: &[Row], start: usize, code: u16, value: u16) -> usize
    requires { start ≤ length rows.now }
    ensures { result ≡ first_from (drop start rows.now) start code value }
{
    for i in start..rows.len() {
        if rows[i].is_word_of(code, value) {
            return i;
        }
    }
    rows.len()
}

// Whether any row has the code.
fn has_code(rows: &[Row], code: u16) -> bool
    ensures { result ≡ list_any (λ r. r.code == code) rows.now }
{
    rows.iter().any(|row| row.code == code)
}

// Why no request has a word with this code.
fn refused(rows: &[Row], code: u16) -> RequestError
    ensures { result ≡ refused_of rows.now code }
{
    if has_code(rows, code) {
        RequestError::OutOfRange
    } else {
        RequestError::Unknown
    }
}

// What a word means.
pub fn decode(word: u16) -> Result<Meaning, RequestError>
    ensures value { result ≡ decode_of word }
    ensures number { meaning_number result ≡ finding_number word }
{
    let rows = table();
    let code = word / 1024;
    let value = word % 1024;
    let place = first_from(&rows, 0, code, value);
    if REQUESTS <= place {
        return Err(refused(&rows, code));
    }
    let first = place as u8;
    let second = first_from(&rows, place + 1, code, value);
    if REQUESTS <= second {
        return Ok(Meaning::One {
            request: first,
            value,
        });
    }
    Ok(Meaning::Shared { first, value })
}

// The word of a request with a value.
pub fn encode(request: u8, value: u16) -> Result<u16, RequestError>
    ensures value { result ≡ encode_of request value }
    ensures number { encoded_number result ≡ encoding_number request value }
{
    let at = usize::from(request);
    if REQUESTS <= at {
        return Err(RequestError::Unknown);
    }
    let row = table()[at];
    if row.is_allowed(value) {
        return Ok(row.code * 1024 + value);
    }
    Err(RequestError::OutOfRange)
}
