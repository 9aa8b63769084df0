//! Control information: the cookie `$HDT`, a type, the format, the properties, and a CRC-16.
ghost use Rattle.std.specs.Prelude.{◌≡◌, ℕ, List, ◌+◌, ◌++◌, length, Ok, IfOk, OnOk, OnErr};
ghost use Rattle.hdt_wire.specs.Checks.{Reads, IsBytes, HasSlice};
ghost use Rattle.hdt_wire.specs.Control.{control_view, expected_control_info, control, control_at, kind_code};
ghost use Rattle.hdt_wire.specs.Control.{format_text, IsControlAt, HasNoZero, IsPrefixOf};

use crate::checks::{bytes_at, demand, text_at, truncate_on_error};
use crate::crc::check16;
use crate::fault::{Fault, Reason};
use byteorder::{ByteOrder, LittleEndian};
use std::alloc::AllocError;

/// The type of control information: the part of the file that follows it.
#[derive(Clone, Copy, Debug, PartialEq, Eq)]
pub enum Kind {
    /// The file.
    Global,
    /// The header.
    Header,
    /// The dictionary.
    Dictionary,
    /// The triples.
    Triples,
}

impl Kind {
    /// The byte that encodes the type.
    fn code(self) -> u8
        ensures { result ≡ kind_code self }
    {
        match self {
            Kind::Global => 1,
            Kind::Header => 2,
            Kind::Dictionary => 3,
            Kind::Triples => 4,
        }
    }

    /// The only supported format of this type.
    fn format(self) -> &'static [u8]
        ensures { result.now ≡ format_text self }
    {
        match self {
            Kind::Global => b"<http://purl.org/HDT/hdt#HDTv1>",
            Kind::Header => b"ntriples",
            Kind::Dictionary => b"<http://purl.org/HDT/hdt#dictionaryFour>",
            Kind::Triples => b"<http://purl.org/HDT/hdt#triplesBitmap>",
        }
    }
}

/// Control information that was read. It borrows its texts from the input.
#[derive(Clone, Copy)]
pub struct Control<'a> {
    format: &'a [u8],
    properties: &'a [u8],
    properties_at: usize,
    end: usize,
}

#[tactic(auto, unfolding(crate::specs::Control::control_view))]
impl<'a> Control<'a> {
    ghost use Rattle.std.specs.Prelude.{◌≡◌};
    ghost use Rattle.hdt_wire.specs.Control.{control_view};

    /// Returns the format, without its zero byte.
    pub fn format(&self) -> &'a [u8]
        ensures { result.now ≡ (control_view self.now).format }
    {
        self.format
    }

    /// Returns the properties, `key=value;` repeated, without their zero byte.
    pub fn properties(&self) -> &'a [u8]
        ensures { result.now ≡ (control_view self.now).properties }
    {
        self.properties
    }

    /// Returns the byte offset of the properties in the input.
    pub fn properties_at(&self) -> usize
        ensures { result ≡ (control_view self.now).properties_at }
    {
        self.properties_at
    }

    /// Returns the byte offset after the CRC.
    pub fn end(&self) -> usize
        ensures { result ≡ (control_view self.now).end }
    {
        self.end
    }
}

/// Reads control information in the order of the format.
#[tactic(auto, unfolding(crate::specs::Control::control_at, crate::specs::Control::control_view))]
fn read_by_checks<'a>(bytes: &'a [u8], at: usize, kind: Kind) -> Result<Control<'a>, Fault>
    ensures exact { Reads control_view result (control_at kind bytes.now at) }
{
    let (magic, code_at) = bytes_at(bytes, at, 4)?;
    demand(magic == b"$HDT".as_slice(), at, Reason::NotHdt)?;
    let (code, format_at) = bytes_at(bytes, code_at, 1)?;
    demand(code == [kind.code()].as_slice(), code_at, Reason::WrongKind)?;
    let (format, properties_at) = text_at(bytes, format_at)?;
    let (properties, crc_at) = text_at(bytes, properties_at)?;
    let (crc_bytes, end) = bytes_at(bytes, crc_at, 2)?;
    let found = check16(&bytes[at..crc_at]);
    demand(
        LittleEndian::read_u16(crc_bytes) == found,
        crc_at,
        Reason::Check16,
    )?;
    demand(format == kind.format(), format_at, Reason::WrongFormat)?;
    Ok(Control {
        format,
        properties,
        properties_at,
        end,
    })
}

/// Reads the control information of a type at a byte offset, from 0. More bytes may follow. Linear time in its length.
///
/// # Errors
///
/// The first of these, in this order: `Truncated`, `NotHdt`, `WrongKind`, `Check16`, `WrongFormat`.
pub fn read_control<'a>(bytes: &'a [u8], at: usize, kind: Kind) -> Result<Control<'a>, Fault>
    // What is returned is encoded there.
    ensures found { IfOk result (λ c. IsControlAt kind (control_view c) bytes.now at) }
    // Whatever is encoded there is returned.
    ensures only { (properties : List ℕ) (end : ℕ) → HasNoZero properties
        → HasSlice bytes.now at (control kind properties) end
        → Reads control_view result (Ok (expected_control_info kind properties at end)) }
    // Otherwise the first error is returned.
    ensures exact { Reads control_view result (control_at kind bytes.now at) }
{
    read_by_checks(bytes, at, kind)
}

/// Appends control information; an error may leave its first bytes.
fn append_control(kind: Kind, properties: &[u8], out: &mut Vec<u8>) -> Result<(), AllocError>
    ensures ok { OnOk result (out.new.items ≡ out.old.items ++ control kind properties.now) }
    ensures err { OnErr result (IsPrefixOf out.old.items out.new.items) }
{
    let start = out.len();
    out.extend_from_slice(b"$HDT")?;
    out.push(kind.code())?;
    out.extend_from_slice(kind.format())?;
    out.push(0)?;
    out.extend_from_slice(properties)?;
    out.push(0)?;
    let mut code = [0u8; 2];
    LittleEndian::write_u16(&mut code, check16(&out[start..]));
    out.extend_from_slice(&code)
}

/// Appends the control information of a type with these properties, which have no zero byte. If memory runs out, `out`
/// is unchanged.
pub fn put_control(kind: Kind, properties: &[u8], out: &mut Vec<u8>) -> Result<(), AllocError>
    requires { HasNoZero properties.now }
    ensures ok { OnOk result (out.new.items ≡ out.old.items ++ control kind properties.now) }
    ensures err { OnErr result (out.new.items ≡ out.old.items) }
{
    let start = out.len();
    let appended = append_control(kind, properties, out);
    truncate_on_error(appended, start, out)
}

/// The law that control information that was written is read back, whatever precedes and follows it.
pub fn control_round_trip()
    ensures { (kind : Kind) (before after properties : List ℕ) → IsBytes properties → HasNoZero properties
        → control_at kind (before ++ control kind properties ++ after) (length before)
        ≡ Ok (expected_control_info kind properties (length before)
        (length before + length (control kind properties))) }
{}
