//! Properties of control information: items `key=value`, separated by `;`.
ghost use Rattle.std.specs.Prelude.{◌≡◌, ◌≤◌, length};
ghost use Rattle.std.specs.Option.{option_copied};
ghost use Rattle.std.specs.List.{position_or_len};
ghost use Rattle.hdt_wire.specs.Property.{is_byte, item_value, property_value};

use memchr::memchr;

/// The index of the first occurrence of a byte, or the length if it does not occur.
fn find_byte(byte: u8, bytes: &[u8]) -> usize
    ensures index { result ≡ position_or_len (is_byte byte) bytes.now }
    ensures within { result ≤ length bytes.now }
{
    match memchr(byte, bytes) {
        Some(at) => at,
        None => bytes.len(),
    }
}

/// The value of an item, if it has the key.
fn parse_item<'a>(piece: &'a [u8], key: &[u8]) -> Option<&'a [u8]>
    ensures { option_copied result ≡ item_value key.now piece.now }
{
    let sign = find_byte(b'=', piece);
    if sign < piece.len() && &piece[..sign] == key {
        Some(&piece[sign + 1..])
    } else {
        None
    }
}

/// Returns the value of the last item with the key. Items are separated by `;`; an item has the key before its first
/// `=` and the value after it, and one without `=` is ignored. Linear time in the text.
pub fn property<'a>(text: &'a [u8], key: &[u8]) -> Option<&'a [u8]>
    ensures { option_copied result ≡ property_value text.now key.now }
{
    let mut found = None;
    let mut rest = text;
    'pieces: loop {
        let cut = find_byte(b';', rest);
        let (piece, after) = rest.split_at(cut);
        found = parse_item(piece, key).or(found);
        match after {
            [] => return found,
            [_, next @ ..] => rest = next,
        }
    }
}
