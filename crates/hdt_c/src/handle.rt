//! Handles of graphs.
ghost use Rattle.std.specs.Prelude.{◌≡◌, true, Option, Some, None, IsSome, ◌≢◌, IfSome};
ghost use Rattle.std.specs.Box.Ownership.{box_owns};
ghost use Rattle.hdt_c.specs.Inside.ResourceKind.{graph_of, is_graph};
ghost use Rattle.hdt_c.specs.declared.handle.Resource.{Resource};
ghost use Rattle.hdt_c.specs.ResourceOwnership.{coded_resource, resource_ptr_owns};
ghost use denote.RawPtr.{null_ptr};

use std::alloc::{Allocator, Global};
use std::marker::{Model, Send};
use std::mem::replace;
use std::ptr::null_mut;
use std::sync::Arc;

/// `hdt_graph`: a handle of an open graph; or zeros, before it is opened and after it is closed.
#[repr(C)]
#[derive(Drop)]
pub struct HdtGraph {
    /// 1 if the graph is open, else 0.
    pub(crate) state: u64,
    /// What owns the graph, or a share of it.
    pub(crate) resource: ResourcePtr,
    ghost is_open: { state ≡ 1 → is_graph resource.value ≡ true },
}

/// The value that a handle owns.
#[derive(Drop)]
pub(crate) enum Resource {
    /// A share of an open graph, which is freed with its last share.
    Graph(Arc<hdt_file::Graph<'static>, Global>),
    /// Bytes that the library made.
    Bytes(Vec<u8>),
}

/// The pointer and the allocator of a box.
pub(crate) struct RawBox<T, A: Allocator> {
    /// The value.
    pub(crate) ptr: *mut T,
    /// The allocator that the value is freed with.
    pub(crate) alloc: A,
    pub ghost value: { T },
}

impl<T, A: Allocator> Model for RawBox<T, A> {
    ghost also_owns = { λ p. box_owns (A.dealloc_token p.alloc) T.row p.ptr p.value };
}

impl<T, A: Allocator> RawBox<T, A> {
    /// Takes a box apart.
    pub(crate) fn of(b: Box<T, A>) -> RawBox<T, A>
    where
        T: Drop,
        ensures { result.value ≡ b.value }
    {
        let (ptr, alloc) = Box::into_raw_with_allocator(b);
        RawBox { ptr, alloc }
    }

    /// Puts the box together again.
    pub(crate) fn into_box(self) -> Box<T, A>
        ensures { result.value ≡ self.value }
    {
        let RawBox { ptr, alloc } = self;
        unsafe { Box::from_raw(alloc, ptr) }
    }
}

/// A pointer to a value that the library owns, or null.
#[repr(C)]
#[derive(Drop)]
pub struct ResourcePtr {
    pub(crate) at: *mut u8,
    alloc: Global,
    pub(crate) ghost value: { Option Resource } by { coded_resource },
}

impl Model for ResourcePtr {
    ghost also_owns = { λ h. resource_ptr_owns h.alloc h.at h.value };
}

// A pointer may go to another thread, since what it owns may: bytes, or a share of a graph, which nothing writes to and
// whose count of shares is atomic. A type with `also_owns` isn't `Send` without this line. The check wants a proof of
// it: proofs/handle/ResourcePtr/TheSendSync/Send.antt.
unsafe impl Send for ResourcePtr {}

impl ResourcePtr {
    /// The null pointer.
    pub(crate) fn none(alloc: Global) -> ResourcePtr
        ensures { (result.value ≡ None) × (result.at ≡ null_ptr) }
    {
        ResourcePtr {
            at: null_mut(),
            alloc,
        }
    }

    /// The pointer of a box.
    pub(crate) fn from_raw_box(parts: RawBox<Resource, Global>) -> ResourcePtr
        ensures { result.value ≡ Some parts.value }
    {
        let RawBox { ptr, alloc } = parts;
        ResourcePtr {
            at: ptr as *mut u8,
            alloc,
        }
    }

    /// The box of a pointer that is not null.
    pub(crate) fn into_raw_box(self) -> RawBox<Resource, Global>
        requires { IsSome self.value }
        ensures { Some result.value ≡ self.value }
    {
        let ResourcePtr { at, alloc } = self;
        RawBox {
            ptr: at as *mut Resource,
            alloc,
        }
    }
}

impl HdtGraph {
    /// A closed handle, which is zeroed.
    fn closed(alloc: Global) -> HdtGraph
        ensures state { result.state ≡ 0 }
        ensures at { result.resource.at ≡ null_ptr }
        ensures resource { result.resource.value ≡ None }
    {
        HdtGraph {
            state: 0,
            resource: ResourcePtr::none(alloc),
        }
    }

    /// Takes the graph out and leaves the handle zeroed; returns `None` if it was closed.
    pub(crate) fn take(&mut self, alloc: Global) -> Option<Box<Resource, Global>>
        ensures taken { IfSome result (λ b. (self.old.state ≡ 1) × (self.old.resource.value ≡ Some b.value)
            × (is_graph (Some b.value) ≡ true)) }
        ensures open { self.old.state ≡ 1 → IsSome result }
        ensures none { result ≡ None → self.new ≡ self.old }
        ensures closed { self.new.state ≢ 1 }
        ensures zeroed { self.old.state ≡ 1 → (self.new.state ≡ 0) × (self.new.resource.at ≡ null_ptr)
            × (self.new.resource.value ≡ None) }
        ensures left { self.old.state ≢ 1 → self.new ≡ self.old }
    {
        if self.state != 1 {
            return None;
        }
        let HdtGraph { state: _, resource } = replace(self, HdtGraph::closed(alloc));
        Some(resource.into_raw_box().into_box())
    }

    /// Puts a graph in, and so opens the handle.
    pub(crate) fn put(&mut self, graph: Box<Resource, Global>)
        requires { is_graph (Some graph.value) ≡ true }
        ensures { (self.new.state ≡ 1) × (self.new.resource.value ≡ Some graph.value) }
    {
        *self = HdtGraph {
            state: 1,
            resource: ResourcePtr::from_raw_box(RawBox::of(graph)),
        };
    }
}

/// The graph that was taken out of a handle.
pub(crate) fn graph_ref(taken: &Box<Resource, Global>) -> &hdt_file::Graph<'static>
    requires { is_graph (Some taken.now.value) ≡ true }
    ensures { graph_of (Some taken.now.value) ≡ Some result.now }
{
    match &**taken {
        Resource::Graph(graph) => graph,
        Resource::Bytes(_) => unreachable!(),
    }
}
