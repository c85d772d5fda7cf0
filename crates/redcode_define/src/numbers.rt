//! The numbers of a range, `FROM..TO` or `FROM..TO/STEP`.

ghost use Rattle.std.specs.Prelude.{◌≡◌, ◌≤◌, ◌+◌, ◌*◌, length, IfSome};
ghost use Rattle.redcode_define.specs.Ranges.{IsRange};

/// The most numbers that a range may have.
const MOST_NUMBERS: u32 = 10_000;

/// The greatest number of a range.
const MOST: u64 = 4_294_967_295;

/// Whole numbers, each greater by a step than the one before.
#[derive(Clone, Copy)]
pub struct Range {
    pub first: u32,
    pub step: u32,
    pub count: u32,
}

/// Whether a text is meant as a range: two dots are in it.
pub fn is_range(text: &[u8]) -> bool {
    place_of(b"..", text) < text.len()
}

/// The range of a text `FROM..TO` or `FROM..TO/STEP`; `None` if it is none, or has over 10,000 numbers.
pub fn range_of(text: &[u8]) -> Option<Range> {
    let dots = place_of(b"..", text);
    if dots >= text.len() {
        return None;
    }
    let first = number_of(&text[..dots])?;
    let rest = behind(dots, 2, text);
    let slash = place_of(b"/", rest);
    let last = number_of(&rest[..slash])?;
    let step = if slash < rest.len() {
        number_of(behind(slash, 1, rest))?
    } else {
        1
    };
    range_between(first, last, step)
}

/// The range from a number to a last one; `None` if the first is greater, the step is 0, or there are over 10,000 numbers.
pub fn range_between(first: u32, last: u32, step: u32) -> Option<Range>
    ensures { IfSome result (λ range. (range.first ≡ first) × (range.step ≡ step) × IsRange last range) }
{
    if first > last || step == 0 {
        return None;
    }
    let steps = (last - first) / step;
    if steps >= MOST_NUMBERS {
        return None;
    }
    Some(Range {
        first,
        step,
        count: steps + 1,
    })
}

/// The number of a range after `index` others.
pub fn value_at(range: Range, index: u32) -> u64
    ensures { result ≡ range.first + index * range.step }
{
    u64::from(range.first) + u64::from(index) * u64::from(range.step)
}

/// The text after the first `place` bytes and `width` more; nothing if there are fewer.
fn behind(place: usize, width: usize, text: &[u8]) -> &[u8] {
    let rest = &text[text.len().min(place)..];
    &rest[rest.len().min(width)..]
}

/// How many bytes of a text are before the first place that begins with these bytes, all if there is none.
fn place_of(bytes: &[u8], text: &[u8]) -> usize
    ensures { result ≤ length text.now }
{
    for place in 0..text.len() {
        if text[place..].starts_with(bytes) {
            return place;
        }
    }
    text.len()
}

/// The number that digits spell; `None` if there is another byte, no byte, or the number is over 4,294,967,295.
fn number_of(text: &[u8]) -> Option<u32> {
    if text.is_empty() {
        return None;
    }
    let mut number: u64 = 0;
    for byte in text {
        if !byte.is_ascii_digit() {
            return None;
        }
        number = number * 10 + u64::from(*byte - b'0');
        if number > MOST {
            return None;
        }
    }
    Some(number as u32)
}
