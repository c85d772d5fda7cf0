//! The headers that a device holds.

ghost use Rattle.std.specs.Prelude.{◌≡◌, ℕ, ◌%◌, ◌<◌, ◌≤◌, List, IfOk};
ghost use Rattle.{sector_disk.specs.{Disk.current, Served.IsServed}, hill_bytes.specs.Layout.{IsHeader, Layout, layout_of}};
ghost use Rattle.hill_images.specs.{Found.{HoldsIf, IsFoundIn, IsNewestFound}, Opening.{HoldsOldIf, HoldsOneIf}, Stands.IsNewestIn};

use hill_bytes::{Format, Header, decode_in};
use sector_disk::{Device, Fault};

/// The newest header of a format on a device; `None` if it holds none. Nothing is written.
pub(crate) fn newest_header<D: Device>(
    device: &mut D,
    format: Format,
) -> Result<Option<Header>, Fault>
    requires { 2 ≤ D.facts.size device.old }
    ensures served { IsServed D.facts device.old device.new result }
    ensures kept { D.facts.lawful device.old → D.facts.disk device.new ≡ D.facts.disk device.old }
    ensures found { D.facts.lawful device.old
        → IfOk result (IsNewestFound (layout_of format) (current (D.facts.disk device.old))) }
{
    let even = read_header(device, format, 0)?;
    let odd = read_header(device, format, 1)?;
    Ok(newer(even, odd))
}

/// Whether a device holds a header of either format. Nothing is written.
pub(crate) fn holds_header<D: Device>(device: &mut D) -> Result<bool, Fault>
    requires { 2 ≤ D.facts.size device.old }
    ensures served { IsServed D.facts device.old device.new result }
    ensures kept { D.facts.lawful device.old → D.facts.disk device.new ≡ D.facts.disk device.old }
    ensures found { D.facts.lawful device.old → IfOk result (HoldsOneIf (current (D.facts.disk device.old))) }
{
    let even = holds_one_in(device, 0)?;
    let odd = holds_one_in(device, 1)?;
    Ok(even || odd)
}

/// Whether a device holds a header of the old format. Nothing is written.
pub fn holds_old_hill<D: Device>(device: &mut D) -> Result<bool, Fault>
    requires { 2 ≤ D.facts.size device.old }
    ensures served { IsServed D.facts device.old device.new result }
    ensures found { D.facts.lawful device.old → IfOk result (HoldsOldIf (current (D.facts.disk device.old))) }
{
    let found = newest_header(device, Format::Old)?;
    Ok(found.is_some())
}

/// The header of a format that a sector holds; `None` if it holds none, or one of the other parity.
fn read_header<D: Device>(device: &mut D, format: Format, n: u32) -> Result<Option<Header>, Fault>
    requires { n < D.facts.size device.old }
    ensures served { IsServed D.facts device.old device.new result }
    ensures kept { D.facts.lawful device.old → D.facts.disk device.new ≡ D.facts.disk device.old }
    ensures found { D.facts.lawful device.old
        → IfOk result (IsFoundIn (layout_of format) n (current (D.facts.disk device.old) n)) }
{
    let mut bytes = [0; 512];
    device.read(n, &mut bytes)?;
    Ok(valid_header(format, n, &bytes))
}

/// Whether a sector holds a header of its parity, of either format.
fn holds_one_in<D: Device>(device: &mut D, n: u32) -> Result<bool, Fault>
    requires { n < D.facts.size device.old }
    ensures served { IsServed D.facts device.old device.new result }
    ensures kept { D.facts.lawful device.old → D.facts.disk device.new ≡ D.facts.disk device.old }
    ensures found { D.facts.lawful device.old → IfOk result (HoldsIf n (current (D.facts.disk device.old) n)) }
{
    let mut bytes = [0; 512];
    device.read(n, &mut bytes)?;
    Ok(is_header(n, &bytes))
}

fn is_header(n: u32, bytes: &[u8; 512]) -> bool
    ensures { HoldsIf n bytes.now result }
{
    valid_header(Format::Old, n, bytes).is_some() || valid_header(Format::New, n, bytes).is_some()
}

pub(crate) fn valid_header(format: Format, n: u32, bytes: &[u8; 512]) -> Option<Header>
    ensures { IsFoundIn (layout_of format) n bytes.now result }
{
    match decode_in(format, bytes) {
        Some(header) => of_parity(format, n, header),
        None => None,
    }
}

fn of_parity(format: Format, n: u32, header: Header) -> Option<Header>
    ensures { (bytes : List ℕ) → IsHeader (layout_of format) bytes header
        → IsFoundIn (layout_of format) n bytes result }
{
    if header.generation() % 2 == u64::from(n) {
        Some(header)
    } else {
        None
    }
}

/// Of two headers of a format that were found, the one of greater generation.
fn newer(even: Option<Header>, odd: Option<Header>) -> Option<Header>
    ensures { (layout : Layout) (image : ℕ → List ℕ) → IsFoundIn layout 0 (image 0) even
        → IsFoundIn layout 1 (image 1) odd
        → IsNewestFound layout image result }
{
    match (even, odd) {
        (Some(even), Some(odd)) => Some(later(even, odd)),
        (Some(even), None) => Some(even),
        (None, odd) => odd,
    }
}

fn later(even: Header, odd: Header) -> Header
    ensures { (layout : Layout) (image : ℕ → List ℕ) → IsFoundIn layout 0 (image 0) (Some even)
        → IsFoundIn layout 1 (image 1) (Some odd)
        → IsNewestIn layout image result }
{
    if even.generation() < odd.generation() {
        odd
    } else {
        even
    }
}
