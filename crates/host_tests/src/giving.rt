//! Numbers of a host, as tests have them.

use host_launches::{Argument, Range, Three};

/// A range along the first dimension.
pub fn along(global: u64, local: u64) -> Range {
    Range {
        dimensions: 1,
        fill: 0,
        offset: Three { x: 0, y: 0, z: 0 },
        global: Three {
            x: global,
            y: 0,
            z: 0,
        },
        local: Three {
            x: local,
            y: 0,
            z: 0,
        },
    }
}

/// A value of at most four words.
pub fn value(bytes: u64, words: [u32; 4]) -> Argument {
    let [a, b, c, d] = words;
    Argument {
        kind: 0,
        reserved: 0,
        bytes,
        memory: 0,
        words: [a, b, c, d, 0, 0, 0, 0, 0, 0, 0, 0, 0, 0, 0, 0],
    }
}

pub fn buffer(bytes: u64, memory: u64) -> Argument {
    Argument {
        kind: 1,
        reserved: 0,
        bytes,
        memory,
        words: [0; 16],
    }
}

pub fn local(bytes: u64) -> Argument {
    Argument {
        kind: 2,
        reserved: 0,
        bytes,
        memory: 0,
        words: [0; 16],
    }
}
