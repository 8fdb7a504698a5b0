//! Streams of pages.
ghost use Rattle.std.specs.Prelude.{IfOk, take, ◌≡◌};
ghost use Rattle.pwg_definitions.specs.Stream.{sync_word};

use pwg_header::{Kind, PageForm, write_header};
use std::alloc::{AllocError, Global};

/// The body of a black page: six lines of eight grey pixels.
pub const BLACK_BODY: [u8; 3] = [5, 7, 0];

/// The first bytes of a stream, without a page (PWG 5102.4, section 4.1).
pub fn begin(alloc: Global) -> Result<Vec<u8>, AllocError>
    ensures { IfOk result (λ bytes. bytes.items ≡ sync_word) }
{
    b"RaS2".to_vec(alloc)
}

/// The first `count` bytes, or all where there are fewer.
pub fn prefix(bytes: &[u8], count: usize) -> &[u8]
    ensures { result.now ≡ take count bytes.now }
{
    if count < bytes.len() {
        &bytes[..count]
    } else {
        bytes
    }
}

/// Appends the header of a page for a printer of these dots an inch.
pub fn add_header(
    bytes: &mut Vec<u8>,
    kind: Kind,
    (hdpi, vdpi): (u32, u32),
    (width, height): (u32, u32),
) -> Result<(), AllocError> {
    let form = PageForm {
        width,
        height,
        kind,
        bytes_per_line: u32::try_from(kind.line_bytes(width as usize)).unwrap_or(u32::MAX),
    };
    let mut header = [0; 1796];
    write_header(&form, hdpi, vdpi, &mut header);
    bytes.extend_from_slice(&header)
}

/// Appends a page for a printer of 360 dots an inch.
pub fn add_page(
    bytes: &mut Vec<u8>,
    kind: Kind,
    size: (u32, u32),
    body: &[u8],
) -> Result<(), AllocError> {
    add_header(bytes, kind, (360, 360), size)?;
    bytes.extend_from_slice(body)
}

/// A stream of so many black pages.
pub fn black_pages(alloc: Global, count: u32) -> Result<Vec<u8>, AllocError> {
    let mut bytes = begin(alloc)?;
    for _ in 0..count {
        add_page(&mut bytes, Kind::Gray8, (8, 6), &BLACK_BODY)?;
    }
    Ok(bytes)
}

/// Parts, one after another.
pub fn joined(alloc: Global, parts: &[&[u8]]) -> Result<Vec<u8>, AllocError> {
    let mut whole = Vec::new(alloc);
    for part in parts {
        whole.extend_from_slice(part)?;
    }
    Ok(whole)
}
