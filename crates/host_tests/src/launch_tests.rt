//! The launch that numbers are.

use crate::giving::{along, buffer, value};
use core_code::tree::Core;
use host_launches::{Asked, Element, Refusal, Scalar, Shape, launch_asked};
use std::alloc::{AllocError, Global};
use words::{Kind, Word};

/// A kernel of groups of 64 with a `uchar` buffer, a `char2`, a `float` and a `long` value.
fn core(alloc: Global) -> Result<Core, AllocError> {
    Ok(Core {
        sizes: [64, 1, 1],
        buffers: vec![in alloc; Kind::Uint]?,
        arguments: vec![in alloc; Kind::Int, Kind::Int, Kind::Uint, Kind::Int]?,
        arrays: Vec::new(alloc),
        variables: Vec::new(alloc),
        body: Vec::new(alloc),
    })
}

fn shapes() -> [Shape; 4] {
    [
        Shape::Buffer(Element {
            scalar: Scalar::Uchar,
            width: 1,
        }),
        Shape::Value(Element {
            scalar: Scalar::Char,
            width: 2,
        }),
        Shape::Value(Element {
            scalar: Scalar::Float,
            width: 1,
        }),
        Shape::Value(Element {
            scalar: Scalar::Long,
            width: 1,
        }),
    ]
}

// Of a buffer of so many bytes, and a `long` that has -2 in its lower half, and this in its higher one.
fn asked(alloc: Global, bytes: u64, higher: u32) -> Result<Result<Asked, Refusal>, AllocError> {
    let core = core(alloc)?;
    // the bytes -1 and 100, and the bits of 1.0f
    let arguments = [
        buffer(bytes, 7),
        value(2, [0x64ff, 0, 0, 0]),
        value(4, [0x3f80_0000, 0, 0, 0]),
        value(8, [0xffff_fffe, higher, 0, 0]),
    ];
    Ok(launch_asked(alloc, &core, &shapes(), &along(128, 64), &arguments))
}

#[test]
fn numbers_are_a_launch(rt: HostRuntime) -> Result<(), AllocError> {
    let wanted = [
        Word::Int(-1),
        Word::Int(100),
        Word::Uint(0x3f80_0000),
        Word::Int(-2),
    ];
    let is_right = match asked(rt.alloc(), 100, u32::MAX)? {
        Ok(found) => {
            let launch = &found.launch;
            launch.groups.x == 2
                && launch.groups.y == 1
                && launch.arguments.as_slice() == wanted.as_slice()
                && found.lengths.as_slice() == [100].as_slice()
        }
        Err(_) => false,
    };
    assert!(rt; is_right);
    Ok(())
}

#[test]
fn long_buffers_are_refused(rt: HostRuntime) -> Result<(), AllocError> {
    let is_refused = match asked(rt.alloc(), 1 << 32, u32::MAX)? {
        Ok(_) => false,
        Err(refusal) => refusal.number == 47 && refusal.place == 0,
    };
    assert!(rt; is_refused);
    Ok(())
}

#[test]
fn longs_that_are_no_ints_are_refused(rt: HostRuntime) -> Result<(), AllocError> {
    let is_refused = match asked(rt.alloc(), 100, 0)? {
        Ok(_) => false,
        Err(refusal) => refusal.number == 41 && refusal.place == 3,
    };
    assert!(rt; is_refused);
    Ok(())
}
