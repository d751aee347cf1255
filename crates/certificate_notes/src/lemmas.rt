//! What lemmas name.

ghost use Rattle.std.specs.Prelude.{◌≡◌, IfOk, map};
ghost use Rattle.std.specs.Option.{option_map};
ghost use Rattle.linear.specs.Forms.{form as form_seen};
ghost use Rattle.certificate.specs.View as view;
ghost use Rattle.certificate_text.specs.Rules.{all};
ghost use Rattle.core_code.specs.View.{kernel as core_seen};
ghost use Rattle.kernel_names.specs.View.{names_seen as map_seen};
ghost use Rattle.certificate_notes.specs.Noted as noted;
ghost use Rattle.certificate_notes.specs.Sights.{chart_of};
ghost use Rattle.certificate_notes.specs.NamesView.{names as names_seen};

use crate::chart::chart_of;
use crate::error::NamesError;
use crate::forms::fact;
use crate::names::Names;
use crate::quotients::loops_among;
use crate::sight::Sight;
use certificate::tree;
use certificate::tree::Lemma;
use linear::Form;
use std::alloc::Global;
use typed_kernels::Typed;

/// All that lemmas may name of a kernel.
pub fn names_of(alloc: Global, kernel: &Typed) -> Result<Names<'_>, NamesError>
    ensures { IfOk result (λ n. names_seen n ≡ chart_of (core_seen kernel.now.1) (map_seen kernel.now.0)) }
{
    let chart = chart_of(alloc, kernel.core(), kernel.names())?;
    let loops = loops_among(alloc, chart.scenes.as_slice())?;
    Ok(Names { chart, loops })
}

impl Names<'_> {
    /// The form of a lemma in symbols; none where it names what the kernel lacks.
    pub fn form(&self, alloc: Global, form: &tree::Form) -> Result<Option<Form>, NamesError>
        ensures { IfOk result (λ r. option_map form_seen r ≡ noted.lemma_form (names_seen self.now) (view.form form.now)) }
    {
        let names = self.chart.names.as_slice();
        let sight = Sight {
            here: names,
            before: names,
            around: self.loops.as_slice(),
            has_new: true,
            has_second: true,
        };
        fact(alloc, &self.chart, &sight, form)
    }
}

/// The kernel has all that the lemmas name.
pub fn are_stated(alloc: Global, names: &Names<'_>, lemmas: &[Lemma]) -> Result<bool, NamesError>
    ensures { IfOk result (λ b. b ≡ all (noted.is_stated (names_seen names.now)) (map view.lemma lemmas.now)) }
{
    for lemma in lemmas {
        if names.form(alloc, &lemma.form)?.is_none() {
            return Ok(false);
        }
    }
    Ok(true)
}
