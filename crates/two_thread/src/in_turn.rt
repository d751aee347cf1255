//! Obligations that are found in turn, as a search asks for them: the claims alone, then the pairs of ends, then those of accesses.

use crate::alike::copy_alike;
use crate::arrays::all_crossings;
use crate::claims::try_denials;
use crate::meetings::all_meetings;
use crate::met::Met;
use crate::numbered::{Obligations, Premises};
use crate::own_path::{OwnPath, parted, together};
use core_code::tree::Core;
use domain::Domain;
use facts::WalkError;
use launch::conditions::Conditions;
use obligations::Notes;
use std::alloc::{AllocError, Global};

/// The most obligations that a kernel may have.
const MOST: usize = 65_536;

impl<D: Domain> Obligations<D> {
    /// The claims alone of what was met along paths. No pairs of ends or of accesses are among them, whatever there is.
    pub fn of_paths(
        alloc: Global,
        premises: Premises<D>,
        paths: Vec<OwnPath<D>>,
        notes: &Notes,
    ) -> Result<Obligations<D>, WalkError> {
        let alike = copy_alike(alloc, notes)?;
        let paths = together(alloc, paths)?;
        let met = Met::of(alloc, paths)?;
        if met.claims.len() > MOST {
            return Err(WalkError::TooMany);
        }
        try_denials(alloc, &met)?;
        Ok(Obligations {
            launch: premises.launch,
            known: premises.known,
            alike,
            met,
            meetings: Vec::new(alloc),
            crossings: Vec::new(alloc),
        })
    }

    /// The paths of all places one by one, in their order.
    pub fn into_paths(self, alloc: Global) -> Result<Vec<OwnPath<D>>, AllocError> {
        let Obligations { met, .. } = self;
        let Met { paths, .. } = met;
        parted(alloc, paths)
    }

    /// The claims, and the pairs of ends.
    pub fn with_meetings(self, alloc: Global) -> Result<Obligations<D>, WalkError> {
        let Obligations {
            launch,
            known,
            alike,
            met,
            ..
        } = self;
        let claims = met.claims.len();
        if claims > MOST {
            return Err(WalkError::TooMany);
        }
        let room = MOST - claims;
        let meetings = all_meetings(alloc, alike.as_slice(), &met, room)?;
        if meetings.len() > room {
            return Err(WalkError::TooMany);
        }
        let found = Obligations {
            launch,
            known,
            alike,
            met,
            meetings,
            crossings: Vec::new(alloc),
        };
        found.try_meetings(alloc)?;
        Ok(found)
    }

    /// The claims, the pairs of ends that were found, and the pairs of accesses.
    pub fn with_crossings(
        self,
        alloc: Global,
        core: &Core,
        conditions: &Conditions,
    ) -> Result<Obligations<D>, WalkError> {
        let Obligations {
            launch,
            known,
            alike,
            met,
            meetings,
            ..
        } = self;
        let others = met.claims.len() + meetings.len();
        if others > MOST {
            return Err(WalkError::TooMany);
        }
        let most = MOST - others;
        let crossings = all_crossings(alloc, core, conditions, &met, most)?;
        if crossings.len() > most {
            return Err(WalkError::TooMany);
        }
        let found = Obligations {
            launch,
            known,
            alike,
            met,
            meetings,
            crossings,
        };
        found.try_crossings(alloc)?;
        Ok(found)
    }
}
