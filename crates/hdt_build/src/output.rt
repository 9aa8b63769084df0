//! What is written, piece by piece.
ghost use Rattle.std.specs.Prelude.{◌≡◌, IfErr, OnOk};
ghost use Rattle.byteorder.specs.Endian.{little_bytes};
ghost use Rattle.hdt_wire.specs.Counted.{inner, failures};
ghost use Rattle.hdt_build.specs.Inside.Output.{CutsPut, Puts};

use crate::fault::BuildFault;
use byteorder::{ByteOrder, LittleEndian};
use hdt_wire::Counted;
use std::io::Write;
use std::marker::Model;

/// A writer with the number of bytes that it was given. In contracts it is what the writer has, if that is known, this
/// number, and the number of the writer's failures.
#[derive(Drop)]
pub(crate) struct Output<W: Write> {
    writer: Counted<W>,
    len: u64,
}

impl<W: Write> Model for Output<W> {
    ghost use Rattle.hdt_wire.specs.Counted.{inner, failures};
    ghost use Rattle.hdt_build.specs.Inside.Output.{OutputState};

    ghost Value = { OutputState };

    ghost view = { λ o. (W.contents (inner o.writer), o.len, failures o.writer) };
}

impl<W: Write> Output<W> {
    /// A writer that was given no bytes.
    pub(crate) fn new(writer: Counted<W>) -> Output<W>
        ensures { result ≡ (W.contents (inner writer), 0, failures writer) }
    {
        Output { writer, len: 0 }
    }

    /// Writes bytes. The error is [`BuildFault::Write`], with the number of all bytes that were written.
    pub(crate) fn put(&mut self, bytes: &[u8]) -> Result<(), BuildFault>
        ensures ok { OnOk result (Puts self.old self.new bytes.now) }
        ensures err { IfErr result (CutsPut self.old self.new bytes.now) }
    {
        let Some(len) = self.len.checked_add(bytes.len() as u64) else {
            return Err(BuildFault::Write(self.len));
        };
        match self.writer.write_all(bytes) {
            Ok(()) => {
                self.len = len;
                Ok(())
            }
            Err(count) => {
                self.len += count;
                Err(BuildFault::Write(self.len))
            }
        }
    }

    /// Writes a CRC-32C: four bytes, little-endian. The errors are those of `put`.
    pub(crate) fn put_code(&mut self, code: u32) -> Result<(), BuildFault>
        ensures { OnOk result (Puts self.old self.new (little_bytes 4 code)) }
    {
        let mut bytes = [0u8; 4];
        LittleEndian::write_u32(&mut bytes, code);
        self.put(&bytes)
    }

    /// The number of bytes that were written.
    pub(crate) fn len(&self) -> u64
        ensures { result ≡ self.now.1 }
    {
        self.len
    }

    /// Returns the writer.
    pub(crate) fn into_inner(self) -> Counted<W>
        ensures contents { W.contents (inner result) ≡ self.0 }
        ensures failures { failures result ≡ self.2 }
    {
        let Output { writer, len: _ } = self;
        writer
    }
}
