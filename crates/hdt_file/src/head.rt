//! The head of a file: global control information, that of the header, and the header body.
ghost use Rattle.std.specs.Prelude.{◌≡◌, ℕ, List, ◌<◌, ◌^◌, length, Ok, IfOk};
ghost use Rattle.hdt_wire.specs.Checks.{Reads, IsBytes};
ghost use Rattle.hdt_wire.specs.Control.{control_view};
ghost use Rattle.hdt_file.specs.Head.{HeadParts, head_parts, body_length, decode_head, decimal_number, IsHead};

use hdt_wire::{Control, Fault, Kind, Reason, bytes_at, property, read_control};

/// The head of a file. It borrows the input.
#[derive(Clone, Copy)]
pub struct Head<'a> {
    global: Control<'a>,
    header: Control<'a>,
    body: &'a [u8],
    end: usize,
}

#[tactic(auto, unfolding(crate::specs::Head::head_parts))]
impl<'a> Head<'a> {
    ghost use Rattle.std.specs.Prelude.{◌≡◌};
    ghost use Rattle.hdt_wire.specs.Control.{control_view};
    ghost use Rattle.hdt_file.specs.Head.{head_parts};

    /// Returns the global control information.
    pub fn global(&self) -> Control<'a>
        ensures { control_view result ≡ (head_parts self.now).global }
    {
        self.global
    }

    /// Returns the control information of the header.
    pub fn header(&self) -> Control<'a>
        ensures { control_view result ≡ (head_parts self.now).header }
    {
        self.header
    }

    /// Returns the header body: N-Triples about the file, which are not parsed.
    pub fn body(&self) -> &'a [u8]
        ensures { result.now ≡ (head_parts self.now).body }
    {
        self.body
    }

    /// Returns the byte offset after the header body in the input.
    pub fn end(&self) -> usize
        ensures { result ≡ (head_parts self.now).end }
    {
        self.end
    }
}

/// The length of the header body in bytes, as the property `length` states it.
fn body_length(header: &Control<'_>) -> Result<u64, Fault>
    ensures { result ≡ body_length (control_view header.now) }
{
    let fault = Fault {
        place: header.properties_at() as u64,
        reason: Reason::HeaderLength,
    };
    let Some(text) = property(header.properties(), b"length") else {
        return Err(fault);
    };
    decimal(text).ok_or(fault)
}

/// Reads the head, one check after another.
#[tactic(auto, unfolding(crate::specs::Head::decode_head, crate::specs::Head::head_parts))]
fn read_by_checks<'a>(bytes: &'a [u8]) -> Result<Head<'a>, Fault>
    ensures exact { Reads head_parts result (decode_head bytes.now) }
{
    let global = read_control(bytes, 0, Kind::Global)?;
    let header = read_control(bytes, global.end(), Kind::Header)?;
    let count = body_length(&header)?;
    let (body, end) = bytes_at(bytes, header.end(), count as usize)?;
    Ok(Head {
        global,
        header,
        body,
        end,
    })
}

/// Reads the head of a file. What follows the header body is not read. Linear time in the control information.
///
/// # Errors
///
/// The first of these, in this order: those of the global control information; those of the header's control
/// information; `HeaderLength`, at the offset of the header's properties, if `length` is not a decimal number below
/// 2^64; `Truncated`, at the offset of the body, if there are fewer bytes.
pub fn read_head<'a>(bytes: &'a [u8]) -> Result<Head<'a>, Fault>
    // What is returned is encoded at the start of the file.
    ensures found { IfOk result (λ head. IsHead (head_parts head) bytes.now) }
    // What is encoded there is returned.
    ensures only { (head : HeadParts) → IsHead head bytes.now → Reads head_parts result (Ok head) }
    // Otherwise it is the first error.
    ensures exact { Reads head_parts result (decode_head bytes.now) }
{
    read_by_checks(bytes)
}

/// At most one head is encoded at the start of fewer than 2^64 bytes.
#[tactic(auto, using(crate::proofs::HeadLaws::head_unique))]
pub fn one_head()
    ensures { (bytes : List ℕ) (a b : HeadParts) → IsBytes bytes → length bytes < 2 ^ 64
        → IsHead a bytes → IsHead b bytes → a ≡ b }
{}

/// The value of a decimal number below 2^64: one digit or more, leading zeros allowed. `None` for any other text.
fn decimal(text: &[u8]) -> Option<u64>
    ensures { result ≡ decimal_number text.now }
{
    if text.is_empty() {
        return None;
    }
    // (`parse` allows a plus sign.)
    if text[0] == b'+' {
        return None;
    }
    let Ok(text) = std::str::from_utf8(text) else {
        return None;
    };
    text.parse::<u64>().ok()
}
