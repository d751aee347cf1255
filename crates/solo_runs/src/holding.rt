//! What buffers may hold under a launch, by the lines of its conditions.

use core_code::tree::Core;
use launch::conditions::Content;
use launch::launches::Launch;
use launch::sums::Difference;
use launch::values::sum_of;
use std::alloc::{AllocError, Global};
use words::Kind;

/// The least and the greatest number that a buffer may hold.
#[derive(Clone, Copy)]
pub struct Span {
    pub low: i64,
    pub high: i64,
}

/// The ends of a kind.
pub fn ends_of(kind: Kind) -> Span {
    match kind {
        Kind::Int => Span {
            low: -0x8000_0000,
            high: 0x7fff_ffff,
        },
        Kind::Uint | Kind::Size => Span {
            low: 0,
            high: 0xffff_ffff,
        },
    }
}

/// A sum's number, or the end of `i64` that is nearest to it.
fn number_of(sum: Difference) -> i64 {
    let number = sum.plus as i128 - sum.minus as i128;
    match i64::try_from(number) {
        Ok(number) => number,
        Err(_) if number < 0 => i64::MIN,
        Err(_) => i64::MAX,
    }
}

/// A span, cut by one line; the same where nothing would be left.
fn narrowed(span: Span, is_upper: bool, limit: i64) -> Span {
    let next = if is_upper {
        Span {
            low: span.low,
            high: span.high.min(limit),
        }
    } else {
        Span {
            low: span.low.max(limit),
            high: span.high,
        }
    };
    if next.low <= next.high { next } else { span }
}

/// The numbers that a buffer of a kind may hold under a launch.
fn span_of(launch: &Launch, contents: &[Content], buffer: usize, kind: Kind) -> Span {
    let mut span = ends_of(kind);
    for content in contents {
        if content.buffer as usize == buffer {
            span = narrowed(
                span,
                content.is_upper,
                number_of(sum_of(launch, &content.sum)),
            );
        }
    }
    span
}

/// The numbers that each buffer may hold under a launch; an empty list where there are no lines on contents.
pub fn spans_of(
    alloc: Global,
    core: &Core,
    contents: &[Content],
    launch: &Launch,
) -> Result<Vec<Span>, AllocError> {
    let mut spans = Vec::new(alloc);
    if contents.is_empty() {
        return Ok(spans);
    }
    for (buffer, kind) in core.buffers.iter().enumerate() {
        spans.push(span_of(launch, contents, buffer, *kind))?;
    }
    Ok(spans)
}
