//! What lemmas may name.

ghost use Rattle.std.specs.Prelude.{◌≡◌, map};
ghost use Rattle.certificate_notes.specs.Noted as noted;
ghost use Rattle.certificate_notes.specs.View.{scene as scene_seen};

use crate::chart::Chart;

/// All that lemmas may name of a kernel: a chart, and the numbers of its loops.
#[derive(Drop)]
pub struct Names<'a> {
    pub chart: Chart<'a>,
    pub(crate) loops: Vec<u32>,
    pub(crate) ghost around: { loops.items ≡ noted.loops_among (map scene_seen chart.scenes.items) },
}
