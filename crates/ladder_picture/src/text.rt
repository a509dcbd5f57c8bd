//! The elements of a picture, and the numbers and names in them.

ghost use Rattle.std.specs.Prelude.{◌≡◌, ◌++◌, codes, decimal, OnOk};
ghost use Rattle.ladder_picture.specs.Labels.{escaped, escaped_byte};
ghost use Rattle.ladder_picture.specs.Elements as elements;

use itoa::Buffer;
use std::alloc::AllocError;

/// Appends bytes. The error is want of memory.
pub fn put(out: &mut Vec<u8>, bytes: &[u8]) -> Result<(), AllocError>
    ensures { OnOk result (out.new.items ≡ out.old.items ++ bytes.now) }
{
    out.extend_from_slice(bytes)
}

/// Appends a number in decimal digits. The error is want of memory.
pub fn put_number(out: &mut Vec<u8>, number: u128) -> Result<(), AllocError>
    ensures { OnOk result (out.new.items ≡ out.old.items ++ decimal number) }
{
    out.extend_from_slice(Buffer::new().format(number).as_bytes())
}

/// Appends a word and a number. The error is want of memory.
pub fn put_counted(out: &mut Vec<u8>, word: &[u8], number: u128) -> Result<(), AllocError>
    ensures { OnOk result (out.new.items ≡ out.old.items ++ (word.now ++ decimal number)) }
{
    put(out, word)?;
    put_number(out, number)
}

/// Appends a byte, escaped, or `?` for one that is not of printable ASCII.
fn put_byte(out: &mut Vec<u8>, c: u8) -> Result<(), AllocError>
    ensures { OnOk result (out.new.items ≡ out.old.items ++ escaped_byte c) }
{
    match c {
        b'&' => put(out, b"&amp;"),
        b'<' => put(out, b"&lt;"),
        b'>' => put(out, b"&gt;"),
        b'"' => put(out, b"&quot;"),
        b' '..=b'~' => put(out, &[c]),
        _ => put(out, b"?"),
    }
}

/// Appends bytes, escaped. The error is want of memory.
pub fn put_escaped(out: &mut Vec<u8>, bytes: &[u8]) -> Result<(), AllocError>
    ensures { OnOk result (out.new.items ≡ out.old.items ++ escaped bytes.now) }
{
    for c in bytes {
        put_byte(out, *c)?;
    }
    Ok(())
}

/// Appends the beginning of an element of text: its kind, and the place of the text. The error is want of memory.
pub fn put_text_start(
    out: &mut Vec<u8>,
    class: &[u8],
    x: &[u8],
    y: u128,
    dy: &[u8],
) -> Result<(), AllocError>
    ensures { OnOk result (out.new.items ≡ out.old.items ++ elements.text_start class.now x.now y dy.now) }
{
    put(out, b"<text class=\"")?;
    put(out, class)?;
    put(out, b"\" x=\"")?;
    put(out, x)?;
    put_counted(out, b"\" y=\"", y)?;
    put(out, b"\" dy=\"")?;
    put(out, dy)?;
    put(out, b"\">")
}

/// Appends its end. The error is want of memory.
pub fn put_text_end(out: &mut Vec<u8>) -> Result<(), AllocError>
    ensures { OnOk result (out.new.items ≡ out.old.items ++ elements.text_end) }
{
    put(out, b"</text>\n")
}

/// Appends the beginning of a path: its kind, and where it begins. The error is want of memory.
pub fn put_path_start(out: &mut Vec<u8>, class: &[u8], x: &[u8], y: u128) -> Result<(), AllocError>
    ensures { OnOk result (out.new.items ≡ out.old.items ++ elements.path_start class.now x.now y) }
{
    put(out, b"<path class=\"")?;
    put(out, class)?;
    put(out, b"\" d=\"M")?;
    put(out, x)?;
    put_counted(out, b" ", y)
}

/// Appends the rest of a path. The error is want of memory.
pub fn put_path_end(out: &mut Vec<u8>, way: &[u8]) -> Result<(), AllocError>
    ensures { OnOk result (out.new.items ≡ out.old.items ++ (way.now ++ elements.path_end)) }
{
    put(out, way)?;
    put(out, b"\"/>\n")
}

/// Appends a path of a fixed form. The error is want of memory.
pub fn put_path(
    out: &mut Vec<u8>,
    class: &[u8],
    x: &[u8],
    y: u128,
    way: &[u8],
) -> Result<(), AllocError>
    ensures { OnOk result (out.new.items ≡ out.old.items ++ elements.path class.now x.now y way.now) }
{
    put_path_start(out, class, x, y)?;
    put_path_end(out, way)
}
