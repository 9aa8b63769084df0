//! Handing bytes out to C, and freeing them.
ghost use Rattle.std.specs.Prelude.{IfOk, OnErr, OnOk};
ghost use Rattle.hdt_c.specs.Bytes.{HoldsBytes, HoldsNoBytes};

use crate::bytes::{Address, HdtBytes};
use crate::handle::{RawBox, Resource, ResourcePtr};
use std::alloc::{AllocError, Global};
use std::mem::replace;

impl HdtBytes {
    /// A handle without bytes.
    fn none(alloc: Global) -> HdtBytes
        ensures { HoldsNoBytes result }
    {
        HdtBytes {
            at: Address::none(),
            len: 0,
            state: 0,
            resource: ResourcePtr::none(alloc),
        }
    }

    /// A handle of the bytes of a vector.
    fn of(alloc: Global, bytes: Vec<u8>) -> Result<HdtBytes, AllocError>
        ensures { IfOk result (λ made. HoldsBytes made bytes.items) }
    {
        let at = Address::of(&bytes);
        let len = bytes.len() as u64;
        match Box::new(alloc, Resource::Bytes(bytes)) {
            Ok(kept) => Ok(HdtBytes {
                at,
                len,
                state: 1,
                resource: ResourcePtr::from_raw_box(RawBox::of(kept)),
            }),
            Err(_) => Err(AllocError),
        }
    }

    /// Frees the bytes.
    pub(crate) fn free(&mut self, alloc: Global)
        ensures { HoldsNoBytes self.new }
    {
        let HdtBytes {
            at: _,
            len: _,
            state,
            resource,
        } = replace(self, HdtBytes::none(alloc));
        if state == 1 {
            drop(resource.into_raw_box().into_box());
        }
    }

    /// Replaces the bytes by those of a vector; if memory runs out there are none.
    pub(crate) fn put(&mut self, alloc: Global, bytes: Vec<u8>) -> Result<(), AllocError>
        ensures ok { OnOk result (HoldsBytes self.new bytes.items) }
        ensures err { OnErr result (HoldsNoBytes self.new) }
    {
        self.free(alloc);
        *self = HdtBytes::of(alloc, bytes)?;
        Ok(())
    }
}

/// `hdt_free`: frees the bytes of a handle, if there are some, and zeroes it.
#[unsafe(no_mangle)]
pub extern "C" fn hdt_free(alloc: Global, bytes: &mut HdtBytes)
    ensures { HoldsNoBytes bytes.new }
{
    bytes.free(alloc);
}
