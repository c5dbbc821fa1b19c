//! Halting an app, and resuming it: the last load is installed once more, with other halts.

ghost use Rattle.std.specs.Prelude.{◌≡◌, IfOk, IfErr, OnErr};
ghost use Rattle.operator.specs.Control.{Halts, IsRefusedHalt, Resumes};

use crate::control::Control;
use crate::reply::OperatorRefusal;
use halts::{is_halted, with_halted, without_halted};
use hot_swap::Generation;
use std::alloc::Global;
use std::sync::Wait;

impl Control {
    /// Halts an app, and returns the generation that is served then; a halted app changes nothing.
    /// If it is refused nothing changes: B8 if no app has the appid. It may wait as a load does.
    pub(crate) fn halt<R: Wait, F>(
        &mut self,
        rt: &R,
        alloc: Global,
        appid: &str,
    ) -> Result<Generation, OperatorRefusal<F>>
        ensures done { IfOk result (λ n. Halts appid.now self.old n self.new) }
        ensures fault { IfErr result (IsRefusedHalt appid.now self.old) }
        ensures same { OnErr result (self.new ≡ self.old) }
    {
        if is_halted(self.halted(), appid) {
            return Ok(self.generation());
        }
        if self.last().rules.find(appid).is_none() {
            return Err(OperatorRefusal::App);
        }
        let Ok(halted) = with_halted(alloc, self.halted(), appid) else {
            return Err(OperatorRefusal::Memory);
        };
        self.install(rt, alloc, halted)
    }

    /// Lifts the halt of an app, and returns the generation that is served then; for an app without
    /// a halt nothing changes. If it is refused nothing changes: B8 if no app has the appid. It may
    /// wait as a load does.
    pub(crate) fn resume<R: Wait, F>(
        &mut self,
        rt: &R,
        alloc: Global,
        appid: &str,
    ) -> Result<Generation, OperatorRefusal<F>>
        ensures done { IfOk result (λ n. Resumes appid.now self.old n self.new) }
        ensures fault { IfErr result (IsRefusedHalt appid.now self.old) }
        ensures same { OnErr result (self.new ≡ self.old) }
    {
        if is_halted(self.halted(), appid) {
            let Ok(halted) = without_halted(alloc, self.halted(), appid) else {
                return Err(OperatorRefusal::Memory);
            };
            return self.install(rt, alloc, halted);
        }
        if self.last().rules.find(appid).is_none() {
            return Err(OperatorRefusal::App);
        }
        Ok(self.generation())
    }
}
