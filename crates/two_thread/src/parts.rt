//! Where on the paths an obligation comes from.

ghost use Rattle.std.specs.Prelude.{◌≡◌, ◌≤◌, ◌<◌, length};
ghost use Rattle.linear.specs.Forms.{forms};
ghost use Rattle.two_thread.specs.Listed.{listed};

use crate::meetings::About;
use crate::numbered::{Obligations, Which};
use crate::on_path::OnPath;
use crate::walked::Tagged;
use domain::Domain;
use linear::Form;

/// A claim of a path; two ends, the second one the second item's, and what is to be shown of them; or two accesses. A search for
/// derivations asks it; no promise stands on it.
#[derive(Clone, Copy)]
pub enum Part {
    Claim(OnPath),
    Ends {
        first: OnPath,
        second: OnPath,
        about: About,
    },
    Accesses {
        first: OnPath,
        second: OnPath,
    },
}

impl<D: Domain> Obligations<D> {
    /// All paths of all places, in order.
    pub fn paths(&self) -> &[Tagged<D>]
        ensures { result.now ≡ self.now.met.paths.items }
    {
        self.met.paths.as_slice()
    }

    /// The facts that hold in each launch under the conditions.
    pub fn launch(&self) -> &[Form]
        ensures { forms result.now ≡ forms self.now.launch.items }
    {
        self.launch.as_slice()
    }

    /// The claim, the two ends or the two accesses that an obligation is of, by its number.
    pub fn part(&self, number: usize) -> Part
        requires first { 0 < number }
        requires last { number ≤ length (listed D.Domain self.now) }
    {
        match self.which(number) {
            Which::OfClaim(i) => Part::Claim(self.met.claims[i]),
            Which::OfMeeting(meeting) => Part::Ends {
                first: self.met.ends[meeting.first],
                second: self.met.ends[meeting.second],
                about: meeting.about,
            },
            Which::OfCrossing(crossing) => Part::Accesses {
                first: self.met.accesses[crossing.first],
                second: self.met.accesses[crossing.second],
            },
        }
    }
}
