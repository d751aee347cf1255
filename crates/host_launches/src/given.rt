//! The numbers of a host, as they come from C, and what is answered to it.

use std::alloc::AllocError;

/// A number along each dimension.
#[repr(C)]
#[derive(Clone, Copy, Drop)]
pub struct Three {
    pub x: u64,
    pub y: u64,
    pub z: u64,
}

/// The sizes of a launch in work-items, as `clEnqueueNDRangeKernel` gets them (OpenCL 1.2, 5.8): of 1 to 3 `dimensions`, the others are not
/// read. `fill` is the word that fills local arrays in a run.
#[repr(C)]
#[derive(Clone, Copy, Drop)]
pub struct Range {
    pub dimensions: u32,
    pub fill: u32,
    pub offset: Three,
    pub global: Three,
    pub local: Three,
}

/// An argument, as `clSetKernelArg` gets it (OpenCL 1.2, 5.7.2). Kind 0: a value of so many bytes, which stand in the words, the lowest bits
/// of a word first. Kind 1: a buffer of so many bytes in this memory. Kind 2: so many bytes of local memory.
#[repr(C)]
#[derive(Clone, Copy, Drop)]
pub struct Argument {
    pub kind: u32,
    pub reserved: u32,
    pub bytes: u64,
    pub memory: u64,
    pub words: [u32; 16],
}

/// What is wrong with a launch: its number (40 to 47, or 90, want of memory), and the argument, dimension or line that it points to.
#[repr(C)]
#[derive(Clone, Copy, Drop)]
pub struct Refusal {
    pub number: u32,
    pub place: u64,
}

impl From<AllocError> for Refusal {
    ghost use Rattle.std.specs.Prelude.{◌≡◌};
    ghost use Rattle.host_launches.specs.Refusing.{memory};

    ghost from_gives = { λ _ e. e ≡ memory };

    fn from(_: AllocError) -> Refusal {
        Refusal {
            number: 90,
            place: 0,
        }
    }
}
