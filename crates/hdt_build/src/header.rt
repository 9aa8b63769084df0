//! The header of a file that is built.
ghost use Rattle.std.specs.Prelude.{◌≡◌, ◌++◌, ◌<◌, IfOk, OnOk};
ghost use Rattle.hdt_build.specs.Header.{header_body, length_property, type_line, count_line};

use hdt_wire::put_decimal;
use std::alloc::{AllocError, Global};

/// The rest of the type line, after the base.
const DATASET: &[u8] =
    b"> <http://www.w3.org/1999/02/22-rdf-syntax-ns#type> <http://purl.org/HDT/hdt#Dataset> .\n";

/// The text between the base and the count in the count line.
const TRIPLES: &[u8] = b"> <http://rdfs.org/ns/void#triples> \"";

/// Appends the type line: the base is an `hdt:Dataset`.
#[tactic(auto, using(std::proofs::Common::append_assoc), unfolding(crate::specs::Header::type_line))]
fn put_type(base: &[u8], out: &mut Vec<u8>) -> Result<(), AllocError>
    ensures { OnOk result (out.new.items ≡ out.old.items ++ type_line base.now) }
{
    out.push(b'<')?;
    out.extend_from_slice(base)?;
    out.extend_from_slice(DATASET)?;
    Ok(())
}

/// Appends the count line: the base has this number of triples.
fn put_count(base: &[u8], count: u64, out: &mut Vec<u8>) -> Result<(), AllocError>
    ensures { OnOk result (out.new.items ≡ out.old.items ++ count_line base.now count) }
{
    out.push(b'<')?;
    out.extend_from_slice(base)?;
    out.extend_from_slice(TRIPLES)?;
    put_decimal(count, out)?;
    out.extend_from_slice(b"\" .\n")?;
    Ok(())
}

/// The header body of a base IRI and a number of triples: its two lines.
#[tactic(auto, using(std::proofs::Common::append_assoc), unfolding(crate::specs::Header::header_body))]
pub(crate) fn header_body(alloc: Global, base: &[u8], count: u64) -> Result<Vec<u8>, AllocError>
    ensures { IfOk result (λ body. body.items ≡ header_body base.now count) }
{
    let mut body = Vec::new(alloc);
    put_type(base, &mut body)?;
    put_count(base, count, &mut body)?;
    Ok(body)
}

/// The property text of the header: the length of its body in bytes.
#[tactic(auto, using(std::proofs::Common::append_assoc), unfolding(crate::specs::Header::length_property))]
pub(crate) fn length_property(alloc: Global, len: u64) -> Result<Vec<u8>, AllocError>
    ensures { IfOk result (λ text. text.items ≡ length_property len) }
{
    let mut text = Vec::new(alloc);
    text.extend_from_slice(b"length=")?;
    put_decimal(len, &mut text)?;
    text.push(b';')?;
    Ok(text)
}
