//! Lists of items that are each read by themselves.
use crate::fault::ScenarioFault;
use crate::form::Form;
use crate::items::Gather;
use crate::spot::Spot;
use serde_json::Value;
use std::alloc::Global;

/// Items of one form, read so far.
#[derive(Drop)]
pub(crate) struct Listed<'a, F: Form> {
    pub(crate) form: &'a F,
    pub(crate) parts: Vec<F::Part>,
}

impl<'a, F: Form> Gather for Listed<'a, F> {
    ghost use Rattle.std.specs.Prelude.{List, map, All};
    ghost use Rattle.scenario.specs.Walks as walk;

    ghost Known = { F };

    ghost known = { λ l. l.form.now };

    ghost Made = { List F.Found };

    ghost made = { λ l. map F.found l.parts.items };

    ghost step = { λ form before d. walk.put_last before (F.reads form d) };

    ghost fits = { λ l. All (λ part. F.good l.form.now (F.found part)) l.parts.items };

    fn take(&mut self, alloc: Global, item: &Value) -> Result<(), ScenarioFault> {
        let part = self.form.read(alloc, item)?;
        self.parts.push(part)?;
        Ok(())
    }
}

/// Items of one form that are counted, read so far.
#[derive(Drop)]
pub(crate) struct Counted<'a, F: Form> {
    pub(crate) spot: &'a Spot<'a>,
    pub(crate) form: &'a F,
    pub(crate) parts: Vec<F::Part>,
}

impl<'a, F: Form> Gather for Counted<'a, F> {
    ghost use Rattle.std.specs.Prelude.{List, map, length, All};
    ghost use Rattle.scenario.specs.Lawful.{StaysCounted};
    ghost use Rattle.scenario.specs.Checks.{Spot};
    ghost use Rattle.scenario.specs.Walks as walk;
    ghost use Rattle.scenario.specs.Format as format;

    ghost Known = { Spot × F };

    ghost known = { λ l. (l.spot.now, l.form.now) };

    ghost Made = { List F.Found };

    ghost made = { λ l. map F.found l.parts.items };

    ghost step = { λ known before d. walk.put_last before (format.counted known.0 (λ _. F.reads known.1) before d) };

    ghost fits = { λ l. All (λ part. F.good l.form.now (F.found part)) l.parts.items × StaysCounted l.spot.now (length l.parts.items) };

    fn take(&mut self, alloc: Global, item: &Value) -> Result<(), ScenarioFault> {
        self.spot.count(alloc, self.parts.len())?;
        let part = self.form.read(alloc, item)?;
        self.parts.push(part)?;
        Ok(())
    }
}
