//! Certificates that have a text.

ghost use Rattle.std.specs.Prelude.{◌≡◌, true};
ghost use Rattle.certificate_text.specs.Rules.{is_any_certificate};
ghost use Rattle.certificate.specs.Drafts.{parts as parts_of};

use crate::draft::Parts;
use crate::rules::is_any_certificate as is_proper;
use crate::tree::{Bound, Entry, Place};
use std::alloc::{AllocError, Global};

/// A certificate that has a text: the lines of places, how loops end, and the entries of obligations, with names and numbers that can be
/// written, and places, loops and obligations that rise. In a wide one loops may double, and the walk may join
/// ways.
#[derive(Drop)]
pub struct Certificate {
    parts: Parts,
    ghost proper: { is_any_certificate (parts_of parts) ≡ true },
}

impl Certificate {
    ghost use Rattle.std.specs.Prelude.{◌≡◌, true, map, IfOk};
    ghost use Rattle.std.specs.Option.{option_map};
    ghost use Rattle.certificate_text.specs.Drafts.{certificate as of_parts, wide_certificate as of_wide_parts};
    ghost use Rattle.certificate_text.specs.Forms.{when};
    ghost use Rattle.certificate_text.specs.Rules.{is_any_certificate};
    ghost use Rattle.certificate.specs.View as view;
    ghost use Rattle.certificate.specs.Certificates.{certificate, proper, proper_wide};
    ghost use Rattle.certificate.specs.Drafts as drafts;

    pub(crate) fn of(parts: Parts) -> Certificate
        requires { is_any_certificate (drafts.parts parts) ≡ true }
        ensures { certificate result ≡ drafts.parts parts }
    {
        Certificate { parts }
    }

    fn of_proper(alloc: Global, parts: Parts) -> Result<Option<Certificate>, AllocError>
        ensures { IfOk result (λ r. option_map certificate r ≡ when (is_any_certificate (drafts.parts parts)) (drafts.parts parts)) }
    {
        if !is_proper(alloc, &parts)? {
            return Ok(None);
        }
        Ok(Some(Certificate::of(parts)))
    }

    /// The certificate of these parts, where versions 1 and 2, length aside, have a text for it.
    pub fn new(
        alloc: Global,
        places: Vec<Place>,
        bounds: Vec<Bound>,
        entries: Vec<Entry>,
    ) -> Result<Option<Certificate>, AllocError>
        ensures { IfOk result (λ r. option_map certificate r ≡ proper (of_parts (map view.place places.items) (map view.bound bounds.items) (map view.entry entries.items))) }
    {
        let parts = Parts {
            is_wide: false,
            joins: false,
            places,
            bounds,
            entries,
        };
        Certificate::of_proper(alloc, parts)
    }

    /// The wide certificate of these parts, which joins or not, where version 4, length aside, has a text for it.
    pub fn new_wide(
        alloc: Global,
        joins: bool,
        places: Vec<Place>,
        bounds: Vec<Bound>,
        entries: Vec<Entry>,
    ) -> Result<Option<Certificate>, AllocError>
        ensures { IfOk result (λ r. option_map certificate r ≡ proper_wide (of_wide_parts joins (map view.place places.items) (map view.bound bounds.items) (map view.entry entries.items))) }
    {
        let parts = Parts {
            is_wide: true,
            joins,
            places,
            bounds,
            entries,
        };
        Certificate::of_proper(alloc, parts)
    }

    /// Whether the certificate is wide: version 4 alone has a text for it, else versions 1 and 2 do.
    pub fn is_wide(&self) -> bool
        ensures { result ≡ (certificate self.now).is_wide }
    {
        self.parts.is_wide
    }

    /// Whether the walk joins ways: only a wide certificate says so.
    pub fn joins(&self) -> bool
        ensures { result ≡ (certificate self.now).joins }
    {
        self.parts.joins
    }

    /// The places of which the certificate says something, in the order of the text.
    pub fn places(&self) -> &[Place]
        ensures { map view.place result.now ≡ (certificate self.now).places }
    {
        self.parts.places.as_slice()
    }

    /// The lines that say how loops end, the loops' numbers rising.
    pub fn bounds(&self) -> &[Bound]
        ensures { map view.bound result.now ≡ (certificate self.now).bounds }
    {
        self.parts.bounds.as_slice()
    }

    /// The entries of the certificate, the numbers of their obligations rising.
    pub fn entries(&self) -> &[Entry]
        ensures { map view.entry result.now ≡ (certificate self.now).entries }
    {
        self.parts.entries.as_slice()
    }
}
