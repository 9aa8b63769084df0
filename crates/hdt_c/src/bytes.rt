//! Handles of bytes, and buffers of the caller.
ghost use Rattle.std.specs.Prelude.{◌≡◌, true};
ghost use Rattle.hdt_c.specs.CallerBuffer.{overwritten_prefix};
ghost use Rattle.hdt_c.specs.Inside.ResourceKind.{is_bytes};
ghost use Rattle.std.specs.Vec.{vec_ptr};
ghost use denote.RawPtr.{null_ptr};

use crate::handle::ResourcePtr;
use std::ptr::null;

/// `hdt_bytes`: bytes that the library made, or zeros.
#[repr(C)]
#[derive(Drop)]
pub struct HdtBytes {
    /// The address of the bytes; null if there are none.
    pub(crate) at: Address,
    /// The number of bytes.
    pub(crate) len: u64,
    /// 1 if there are bytes to be freed, else 0.
    pub(crate) state: u64,
    /// What owns the bytes.
    pub(crate) resource: ResourcePtr,
    ghost is_made: { state ≡ 1 → is_bytes resource.value ≡ true },
}

/// The address of bytes that C may read, or null. It doesn't own the bytes.
#[repr(C)]
#[derive(Drop)]
pub struct Address {
    /// The pointer.
    pub(crate) at: *const u8,
}

impl Address {
    /// The null pointer.
    pub(crate) fn none() -> Address
        ensures { result.at ≡ null_ptr }
    {
        Address { at: null() }
    }

    /// The address of a vector's bytes.
    pub(crate) fn of(bytes: &Vec<u8>) -> Address
        ensures { result.at ≡ vec_ptr bytes.now }
    {
        Address { at: bytes.as_ptr() }
    }
}

/// Copies as many items to the start of a buffer as fit.
pub(crate) fn copy_into<T: Copy>(items: &[T], buffer: &mut [T])
    ensures { buffer.new ≡ overwritten_prefix items.now buffer.old }
{
    let count = items.len().min(buffer.len());
    buffer[..count].copy_from_slice(&items[..count]);
}
