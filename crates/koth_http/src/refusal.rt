//! Why a browser gets no page.

ghost use Rattle.std.specs.Prelude.{◌≡◌, codes, string_bytes};
ghost use Rattle.koth_http.specs.Response.{refusal_line, refusal_sentence};

/// Why a browser gets no page.
#[derive(Clone, Copy)]
pub enum Refusal {
    /// What came is no request, or it has two fields `Host`, or none though it is one of HTTP/1.1.
    BadRequest,
    /// The target names no page, or one that the hill doesn't have.
    NotFound,
    /// The target names a page, but the method is neither `GET` nor `HEAD`.
    MethodNotAllowed,
    /// The host that the request is for is not this machine's.
    Misdirected,
    /// The head has more than 8,192 bytes or more than 64 fields.
    HeadTooLarge,
    /// There is no memory for the page. The caller finds this.
    Unavailable,
    /// The hill takes no more warriors. The caller finds this.
    Worn,
}

impl Refusal {
    /// The first line of the answer, with the fields that it alone has.
    pub(crate) fn line(self) -> &'static [u8]
        ensures { result.now ≡ refusal_line self }
    {
        match self {
            Refusal::BadRequest => b"HTTP/1.1 400 Bad Request\r\n",
            Refusal::NotFound => b"HTTP/1.1 404 Not Found\r\n",
            Refusal::MethodNotAllowed => {
                b"HTTP/1.1 405 Method Not Allowed\r\nAllow: GET, HEAD\r\n"
            }
            Refusal::Misdirected => b"HTTP/1.1 421 Misdirected Request\r\n",
            Refusal::HeadTooLarge => b"HTTP/1.1 431 Request Header Fields Too Large\r\n",
            Refusal::Unavailable | Refusal::Worn => b"HTTP/1.1 503 Service Unavailable\r\n",
        }
    }

    /// The sentence that explains it to people.
    pub(crate) fn sentence(self) -> &'static [u8]
        ensures { result.now ≡ refusal_sentence self }
    {
        match self {
            Refusal::BadRequest => b"This is no request of HTTP.",
            Refusal::NotFound => b"There is no such page.",
            Refusal::MethodNotAllowed => b"A page can only be read.",
            Refusal::Misdirected => {
                b"This hill is not served under that name: ask for its address, or have it served with --host and the name."
            }
            Refusal::HeadTooLarge => b"The head of this request is too large.",
            Refusal::Unavailable => b"There is no memory for this page now.",
            Refusal::Worn => b"This hill takes no more warriors.",
        }
    }
}
