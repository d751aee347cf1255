//! Joined lines to tokens.

ghost use Rattle.std.specs.Prelude.{◌≡◌, map, true, false};
ghost use Rattle.opencl_tokens.specs.Scanning.{site_at, token_of, tokens, lead, tokens_of};
ghost use Rattle.opencl_tokens.specs.Seen.{site, token, token_kind, before, joined, Tokens};

use crate::pieces::{Piece, piece_at};
use crate::{FIRST_SITE, Joined, Site, Token, TokenError, TokenKind};
use std::alloc::Global;

/// The lead of a token: whether it begins a line, and whether white space or a comment stands before it.
#[derive(Clone, Copy)]
pub struct Lead {
    begins_line: bool,
    is_spaced: bool,
}

/// The tokens of joined lines, the last one `End`, or their first fault.
pub fn tokens<'a>(alloc: Global, lines: &'a Joined) -> Result<Vec<Token<'a>>, TokenError>
    ensures { Tokens result (tokens_of (joined lines.now)) }
{
    scan(alloc, lines.bytes.as_slice(), lines.sites.as_slice())
}

/// The tokens of bytes, which have these places.
fn scan<'a>(alloc: Global, bytes: &'a [u8], sites: &[Site]) -> Result<Vec<Token<'a>>, TokenError>
    ensures { Tokens result (tokens (map site sites.now) (lead true false) 0 0 bytes.now) }
{
    let mut tokens = Vec::new(alloc);
    let mut before = Lead {
        begins_line: true,
        is_spaced: false,
    };
    // How many bytes of the piece that was read last are still to pass.
    let mut skip = 0;
    for (at, byte) in bytes.iter().enumerate() {
        if skip > 0 {
            skip -= 1;
            continue;
        }
        match piece_at(*byte, &bytes[at..]) {
            Piece::Line => {
                before = Lead {
                    begins_line: true,
                    is_spaced: true,
                };
            }
            Piece::Blank(count) => {
                before = Lead {
                    begins_line: before.begins_line,
                    is_spaced: true,
                };
                skip = count.saturating_sub(1);
            }
            Piece::Has(kind, count) => {
                tokens.push(token_of(kind, site_at(sites, at), before))?;
                before = Lead {
                    begins_line: false,
                    is_spaced: false,
                };
                skip = count.saturating_sub(1);
            }
            Piece::Bad(fault) => {
                return Err(TokenError::At {
                    fault,
                    site: site_at(sites, at),
                });
            }
        }
    }
    tokens.push(token_of(TokenKind::End, site_at(sites, bytes.len()), before))?;
    Ok(tokens)
}

/// The place of a byte.
fn site_at(sites: &[Site], at: usize) -> Site
    ensures { site result ≡ site_at (map site sites.now) at }
{
    if at < sites.len() {
        sites[at]
    } else {
        FIRST_SITE
    }
}

fn token_of(kind: TokenKind<'_>, place: Site, margin: Lead) -> Token<'_>
    ensures { token result ≡ token_of (token_kind kind.entry) (site place) (before margin) }
{
    Token {
        kind,
        site: place,
        begins_line: margin.begins_line,
        is_spaced: margin.is_spaced,
    }
}
