//! What a host is answered of texts.

use crate::giving::{along, buffer, local, value};
use host_answers::{build_words, checked, explained, meets, run_kernel};
use host_launches::{Argument, Range};
use std::alloc::Global;

const KERNEL: &[u8] = b"typedef float4 quad;
kernel void mix_all(global uchar *bytes, local float *part, const quad scale, short s, global float3 *v, uint n) {
  size_t i = get_global_id(0);
  if (i < n) bytes[i] = (uchar)(s + COUNT);
}
";

const CONDITIONS: &[u8] = b"conditions 3
define COUNT 1 + 2
define FLAG
define TWICE(a) (a) * 2
local_size 64 1 1
local part 64
groups 1..1024 1..1 1..1
arg scale_s0 0..4294967295
arg scale_s1 0..4294967295
arg scale_s2 0..4294967295
arg scale_s3 0..4294967295
arg s -100..100
arg n 0..65536
length bytes >= n
length v >= 0
budget 1000
";

fn arguments() -> [Argument; 6] {
    [
        buffer(100, 1),
        local(256),
        value(16, [1, 2, 3, 4]),
        value(2, [0xfff9, 0, 0, 0]),
        buffer(48, 2),
        value(4, [100, 0, 0, 0]),
    ]
}

fn told(alloc: Global, range: &Range, arguments: &[Argument]) -> (u32, u64) {
    let answer = meets(alloc, KERNEL, CONDITIONS, 0, range, arguments);
    (answer.number, answer.place)
}

/// What is told where one argument is another.
fn told_with(alloc: Global, at: usize, other: Argument) -> (u32, u64) {
    let mut given = arguments();
    if at < given.len() {
        given[at] = other;
    }
    told(alloc, &along(128, 64), &given)
}

#[test]
fn a_launch_meets_its_conditions(rt: HostRuntime) {
    let alloc = rt.alloc();
    assert!(rt; told(alloc, &along(128, 64), &arguments()) == (0, 0));
    assert!(rt; told_with(alloc, 5, value(4, [101, 0, 0, 0])) == (40, 14));
    assert!(rt; told_with(alloc, 3, value(2, [0xff9b, 0, 0, 0])) == (40, 12));
}

#[test]
fn arguments_are_compared_with_parameters(rt: HostRuntime) {
    let alloc = rt.alloc();
    assert!(rt; told_with(alloc, 3, value(4, [1, 0, 0, 0])) == (41, 3));
    assert!(rt; told_with(alloc, 2, value(12, [1, 2, 3, 0])) == (41, 2));
    assert!(rt; told_with(alloc, 1, local(255)) == (41, 1));
    assert!(rt; told_with(alloc, 4, buffer(48, 1)) == (44, 4));
    assert!(rt; told_with(alloc, 0, buffer(1 << 32, 1)) == (47, 0));
    assert!(rt; told(alloc, &along(128, 64), &arguments()[..5]) == (41, 5));
}

#[test]
fn sizes_are_whole_groups(rt: HostRuntime) {
    let alloc = rt.alloc();
    let mut moved = along(128, 64);
    moved.offset.x = 1;
    assert!(rt; told(alloc, &moved, &arguments()) == (43, 0));
    assert!(rt; told(alloc, &along(128, 32), &arguments()) == (42, 0));
    assert!(rt; told(alloc, &along(100, 64), &arguments()) == (42, 0));
}

#[test]
fn a_certificate_is_missing(rt: HostRuntime) {
    let answer = checked(rt.alloc(), KERNEL, CONDITIONS, b"", 0);
    assert!(rt; answer.number == 50 && answer.place == 1);
}

#[test]
fn an_answer_is_explained(rt: HostRuntime) {
    let mut room = [0u8; 10];
    let count = explained(rt.alloc(), KERNEL, CONDITIONS, b"", 0, &mut room);
    assert!(rt; 10 < count && &room == b"refused 50");
}

#[test]
fn definitions_are_words_of_a_build(rt: HostRuntime) {
    let mut room = [0u8; 64];
    let count = build_words(rt.alloc(), CONDITIONS, &mut room);
    let wanted = b"-DCOUNT=1/**/+/**/2 -DFLAG -DTWICE(a)=(a)/**/*/**/2";
    assert!(rt; count == 51 && room.as_slice().starts_with(wanted.as_slice()));
}

const FILL: &[u8] =
    b"kernel __attribute__((reqd_work_group_size(2, 1, 1))) void fill(global uint *a, uint word) {
  a[get_global_id(0)] = word;
}
";

const FILL_CONDITIONS: &[u8] = b"conditions 1
groups 1..2 1..1 1..1
arg word 0..9
length a >= 2*groups.0
budget 1
";

const FILL_CERTIFICATE: &[u8] = b"certificate 2
ob 2 show
g 9
g 12
g 14
g 23
s 1 1 1 2 2 3 1 4
ob 3 show
g 36
g 41
g 42
s 2 1 1 2 1 3
ob 4 show
g 35
g 41
g 43
s 2 1 1 2 1 3
ob 5 show
g 12
g 23
g 35
g 36
s 1 1 1 2 2 3 1 4
ob 6 show
g 11
g 24
g 35
g 37
s 1 1 1 2 2 3 1 4
end
";

/// What is told of a run of `fill`: number, place and length.
fn told_of_run(alloc: Global, launch: &[u8], room: &mut [u8]) -> (u32, u64, u64) {
    let mut whole = 0;
    let answer = run_kernel(
        alloc,
        FILL,
        FILL_CONDITIONS,
        FILL_CERTIFICATE,
        launch,
        0,
        room,
        &mut whole,
    );
    (answer.number, answer.place, whole)
}

#[test]
fn a_launch_is_run(rt: HostRuntime) {
    let alloc = rt.alloc();
    let mut room = [0u8; 24];
    let launch = b"launch 1\ngroups 1 1 1\narg word 7\nbuffer a list 1 2 3\nfill 0\n";
    assert!(rt; told_of_run(alloc, launch, &mut room) == (0, 0, 20));
    assert!(rt; room.as_slice().starts_with(b"buffer a list 7 7 3\n"));
    let unmet = b"launch 1\ngroups 1 1 1\narg word 10\nbuffer a list 1 2 3\nfill 0\n";
    assert!(rt; told_of_run(alloc, unmet, &mut room) == (40, 3, 0));
    assert!(rt; told_of_run(alloc, b"launch 1\n", &mut room) == (32, 2, 0));
    assert!(rt; room.as_slice().starts_with(b"buffer a list 7 7 3\n"));
}
