//! The lines that a browser sends in place of commands.

ghost use Rattle.std.specs.{Prelude.{◌≡◌, take}, List.list_all};
ghost use Rattle.koth_protocol.specs.Request.{is_foreign, is_request, is_sent, names_host, names_method};

/// The bytes of a line that tell whether it is a request: as many as the longest method has with its blank.
const START: usize = 8;

/// The bytes of `Host:`.
const HOST: usize = 5;

/// The bytes of a line among which a control byte tells that no author sent it.
const LOOKED_AT: usize = 256;

/// Whether no author sends such a line: it begins as a request of HTTP does, or has a control byte among its first
/// bytes, as a record of TLS has.
pub(crate) fn is_foreign(line: &[u8]) -> bool
    ensures { result ≡ is_foreign line.now }
{
    is_request(line) || !begins_as_sent(line)
}

/// Whether an author may send the first bytes of a line.
fn begins_as_sent(line: &[u8]) -> bool
    ensures { result ≡ list_all is_sent (take 256 line.now) }
{
    let start = &line[..LOOKED_AT.min(line.len())];
    are_sent(start)
}

/// Whether an author may send each of these bytes.
fn are_sent(bytes: &[u8]) -> bool
    ensures { result ≡ list_all is_sent bytes.now }
{
    bytes.iter().all(|byte| is_sent(*byte))
}

/// Whether an author may send a byte: no control byte but a tab or a carriage return.
fn is_sent(byte: u8) -> bool
    ensures { result ≡ is_sent byte }
{
    !byte.is_ascii_control() || byte == b'\t' || byte == b'\r'
}

/// Whether a line begins as a request of HTTP does: with a method and a blank, or with `Host:` in any letter case.
fn is_request(line: &[u8]) -> bool
    ensures { result ≡ is_request line.now }
{
    let start = &line[..START.min(line.len())];
    names_method(start) || names_host(start)
}

/// Whether a line begins with a method and a blank.
fn names_method(line: &[u8]) -> bool
    ensures { result ≡ names_method line.now }
{
    line.starts_with(b"GET ")
        || line.starts_with(b"HEAD ")
        || line.starts_with(b"POST ")
        || line.starts_with(b"PUT ")
        || line.starts_with(b"DELETE ")
        || line.starts_with(b"CONNECT ")
        || line.starts_with(b"OPTIONS ")
        || line.starts_with(b"TRACE ")
        || line.starts_with(b"PATCH ")
}

/// Whether a line begins with `Host:`, upper and lower case being one.
fn names_host(line: &[u8]) -> bool
    ensures { result ≡ names_host line.now }
{
    let start = &line[..HOST.min(line.len())];
    start.eq_ignore_ascii_case(b"host:")
}
