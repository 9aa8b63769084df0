//! The output of `info`.
ghost use Rattle.std.specs.Prelude.{◌≡◌, ◌++◌, ◌%◌, ◌/◌, ◌*◌, IfOk, OnOk};
ghost use Rattle.hdt_tool.specs.InfoText.{name_text, value_end, number_text, mean, mean_text, flag_text, sizes_text};
ghost use Rattle.hdt_tool.specs.InfoText.{strings_text, section_text, sections_text, widths_text, flags_text, opening};
ghost use Rattle.hdt_tool.specs.InfoText.{closing, info_text};

use hdt_file::{DictionaryInfo, EntryBits, FileInfo, SectionInfo};
use hdt_wire::put_decimal;
use std::alloc::{AllocError, Global};

/// Appends a name, in two parts, up to its value.
#[tactic(auto, using(std::proofs::Common::append_assoc))]
fn put_name(json: bool, part: &str, name: &str, out: &mut Vec<u8>) -> Result<(), AllocError>
    ensures { OnOk result (out.new.items ≡ out.old.items ++ name_text json (part.now ++ name.now)) }
{
    if json {
        out.push(b'"')?;
        out.extend_from_slice(part.as_bytes())?;
        out.extend_from_slice(name.as_bytes())?;
        return out.extend_from_slice(b"\":");
    }
    out.extend_from_slice(part.as_bytes())?;
    out.extend_from_slice(name.as_bytes())?;
    Ok(out.push(b'\t')?)
}

/// Appends what follows a value.
fn put_value_end(json: bool, out: &mut Vec<u8>) -> Result<(), AllocError>
    ensures { OnOk result (out.new.items ≡ out.old.items ++ value_end json) }
{
    if json {
        return out.extend_from_slice(b",");
    }
    Ok(out.push(b'\n')?)
}

/// Appends a number with its name, which is in two parts.
#[tactic(auto, using(std::proofs::Common::append_assoc), unfolding(crate::specs::InfoText::number_text))]
fn put_number(
    json: bool,
    part: &str,
    name: &str,
    number: u64,
    out: &mut Vec<u8>,
) -> Result<(), AllocError>
    ensures { OnOk result (out.new.items ≡ out.old.items ++ number_text json (part.now ++ name.now) number) }
{
    put_name(json, part, name, out)?;
    put_decimal(number, out)?;
    put_value_end(json, out)
}

/// Appends a quotient with one digit after the point, rounded down.
#[tactic(auto, using(std::proofs::Common::append_assoc), unfolding(crate::specs::InfoText::mean))]
fn put_quotient(alloc: Global, total: u128, count: u64, out: &mut Vec<u8>) -> Result<(), AllocError>
    ensures { OnOk result (out.new.items ≡ out.old.items ++ mean total count) }
{
    let divisor = u128::from(count.max(1));
    let (whole, tenth) = (total / divisor, total % divisor * 10 / divisor);
    out.extend_from_slice(format!(in alloc; "{whole}.{tenth}")?.as_bytes())
}

/// Appends a mean with its name, which is in two parts.
#[tactic(auto, using(std::proofs::Common::append_assoc), unfolding(crate::specs::InfoText::mean_text))]
fn put_mean(
    alloc: Global,
    json: bool,
    part: &str,
    name: &str,
    total: u128,
    count: u64,
    out: &mut Vec<u8>,
) -> Result<(), AllocError>
    ensures { OnOk result (out.new.items ≡ out.old.items ++ mean_text json (part.now ++ name.now) total count) }
{
    put_name(json, part, name, out)?;
    put_quotient(alloc, total, count, out)?;
    put_value_end(json, out)
}

/// Appends the sizes of a section.
#[tactic(auto, using(std::proofs::Common::append_assoc), unfolding(crate::specs::InfoText::section_text))]
fn put_section(
    alloc: Global,
    json: bool,
    section: &str,
    info: &SectionInfo,
    out: &mut Vec<u8>,
) -> Result<(), AllocError>
    ensures { OnOk result (out.new.items ≡ out.old.items ++ section_text json section.now info.now) }
{
    put_number(json, section, "-bytes", info.bytes, out)?;
    put_number(json, section, "-block-size", info.block_size, out)?;
    let (total, count) = (info.string_bytes, info.strings);
    put_mean(alloc, json, section, "-mean-length", total, count, out)?;
    put_number(
        json,
        section,
        "-offset-bits",
        u64::from(info.offset_bits),
        out,
    )
}

/// Appends the sizes of all sections.
#[tactic(auto, using(std::proofs::Common::append_assoc), unfolding(crate::specs::InfoText::sections_text))]
fn put_sections(
    alloc: Global,
    json: bool,
    info: &DictionaryInfo,
    out: &mut Vec<u8>,
) -> Result<(), AllocError>
    ensures { OnOk result (out.new.items ≡ out.old.items ++ sections_text json info.now) }
{
    put_section(alloc, json, "shared", &info.shared, out)?;
    put_section(alloc, json, "subjects", &info.subjects, out)?;
    put_section(alloc, json, "predicates", &info.predicates, out)?;
    put_section(alloc, json, "objects", &info.objects, out)
}

/// Appends the bytes of the file and of its header body, and the number of triples.
#[tactic(auto, using(std::proofs::Common::append_assoc), unfolding(crate::specs::InfoText::sizes_text))]
fn put_sizes(json: bool, info: &FileInfo, out: &mut Vec<u8>) -> Result<(), AllocError>
    ensures { OnOk result (out.new.items ≡ out.old.items ++ sizes_text json info.now) }
{
    put_number(json, "", "bytes", info.bytes, out)?;
    put_number(json, "", "header-bytes", info.header_bytes, out)?;
    put_number(json, "", "triples", info.triples, out)
}

/// Appends the number of strings of each section.
#[tactic(auto, using(std::proofs::Common::append_assoc), unfolding(crate::specs::InfoText::strings_text))]
fn put_string_counts(json: bool, info: &DictionaryInfo, out: &mut Vec<u8>) -> Result<(), AllocError>
    ensures { OnOk result (out.new.items ≡ out.old.items ++ strings_text json info.now) }
{
    put_number(json, "", "shared", info.shared.strings, out)?;
    put_number(json, "", "subjects", info.subjects.strings, out)?;
    put_number(json, "", "predicates", info.predicates.strings, out)?;
    put_number(json, "", "objects", info.objects.strings, out)
}

/// Appends the bits of an entry of each sequence of the triples.
#[tactic(auto, using(std::proofs::Common::append_assoc), unfolding(crate::specs::InfoText::widths_text))]
fn put_widths(json: bool, bits: EntryBits, out: &mut Vec<u8>) -> Result<(), AllocError>
    ensures { OnOk result (out.new.items ≡ out.old.items ++ widths_text json bits) }
{
    put_number(json, "", "bitmap-y-bits", u64::from(bits.bitmap_y), out)?;
    put_number(json, "", "bitmap-z-bits", u64::from(bits.bitmap_z), out)?;
    put_number(json, "", "array-y-bits", u64::from(bits.array_y), out)?;
    put_number(json, "", "array-z-bits", u64::from(bits.array_z), out)
}

/// The text of a flag.
fn flag_text(json: bool, set: bool) -> &'static str
    ensures { result.now ≡ flag_text json set }
{
    match (json, set) {
        (true, true) => "true",
        (true, false) => "false",
        (false, true) => "yes",
        (false, false) => "no",
    }
}

/// Appends whether the file is tight, and whether it is canonical.
#[tactic(auto, using(std::proofs::Common::append_assoc), unfolding(crate::specs::InfoText::flags_text))]
fn put_flags(json: bool, tight: bool, canonical: bool, out: &mut Vec<u8>) -> Result<(), AllocError>
    ensures { OnOk result (out.new.items ≡ out.old.items ++ flags_text json tight canonical) }
{
    put_name(json, "", "tight", out)?;
    out.extend_from_slice(flag_text(json, tight).as_bytes())?;
    put_value_end(json, out)?;
    put_name(json, "", "canonical", out)?;
    out.extend_from_slice(flag_text(json, canonical).as_bytes())
}

/// What precedes the first value.
fn opening(json: bool) -> &'static str
    ensures { result.now ≡ opening json }
{
    if json { "{" } else { "" }
}

/// What follows the last value.
fn closing(json: bool) -> &'static str
    ensures { result.now ≡ closing json }
{
    if json { "}\n" } else { "\n" }
}

/// The output of `info`: a line for each value, with its name, a tab and the value; with `json` one object with the
/// same names and values.
#[tactic(auto, using(std::proofs::Common::append_assoc), unfolding(crate::specs::InfoText::info_text))]
pub(crate) fn info_text(
    alloc: Global,
    json: bool,
    info: &FileInfo,
    tight: bool,
    canonical: bool,
) -> Result<Vec<u8>, AllocError>
    ensures { IfOk result (λ text. text.items ≡ info_text json info.now tight canonical) }
{
    let mut text = Vec::new(alloc);
    text.extend_from_slice(opening(json).as_bytes())?;
    put_sizes(json, info, &mut text)?;
    put_string_counts(json, &info.dictionary, &mut text)?;
    put_sections(alloc, json, &info.dictionary, &mut text)?;
    put_widths(json, info.entry_bits, &mut text)?;
    put_flags(json, tight, canonical, &mut text)?;
    text.extend_from_slice(closing(json).as_bytes())?;
    Ok(text)
}
