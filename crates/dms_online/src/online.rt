//! A running database that copies itself into a dump.

ghost use Rattle.std.specs.Prelude.{◌≡◌, ◌<◌, ◌≤◌, IfErr, IfOk, IsTrue, None, Some};
ghost use Rattle.dms_online.specs.Calls.{AsWasOrShut, Beside};
ghost use Rattle.dms_online.specs.Plans.{IsPlanOf};
ghost use Rattle.dms_moments.specs.Moments.{Steps};
ghost use Rattle.dms_wal.specs.Database.{running_held};

use crate::heads::begin_dump;
use crate::{Copying, DumpSite};
use dms_block::BlockFault;
use dms_site::Site;
use dms_wal::Running;

/// A database that runs, and the dump into which it is copied meanwhile, if there is one.
pub struct Online<S: Site> {
    pub running: Running<DumpSite<S>>,
    pub copy: Option<Copying>,
}

impl<S: Site> Online<S> {
    ghost use Rattle.dms_online.specs.Onlines.{online_held};

    /// A database without a dump.
    pub fn new(running: Running<DumpSite<S>>) -> Online<S>
        requires { (running_held ⟦<DumpSite<S> as Site>⟧ running).sound }
        ensures is { (result.running ≡ running) × (result.copy ≡ None) }
        ensures sound { (online_held ⟦<DumpSite<S> as Site>⟧ S.Site result).sound }
    {
        Online {
            running,
            copy: None,
        }
    }

    /// Begins a dump of a database in which nothing is changed since its last point: cuts its file, and writes its shut gate and its head so far.
    /// Takes no memory. Answers Disk alone.
    pub fn begin(
        mut running: Running<DumpSite<S>>,
        copy: Copying,
    ) -> Result<Online<S>, (BlockFault, Running<DumpSite<S>>)>
        requires sound { (running_held ⟦<DumpSite<S> as Site>⟧ running).sound }
        requires above { 20000 < running.log.site.file }
        requires below { running.log.site.file ≤ 30000 }
        requires plan { IsPlanOf running copy }
        ensures sound { IfOk result (λ o. (IsTrue S.tells → (running_held ⟦<DumpSite<S> as Site>⟧ running).mark ≡ (running_held ⟦<DumpSite<S> as Site>⟧ running).content)
            → (online_held ⟦<DumpSite<S> as Site>⟧ S.Site o).sound) }
        ensures copy { IfOk result (λ o. o.copy ≡ Some copy) }
        ensures begun { IfOk result (λ o. Beside ⟦<DumpSite<S> as Site>⟧ {T = Unit {0}} (Ok tt) running o.running) }
        ensures failed { IfErr result (λ e. Beside ⟦<DumpSite<S> as Site>⟧ {T = Unit {0}} (Err e.0) running e.1) }
        ensures only { IfErr result (λ e. e.0 ≡ BlockFault.Disk) }
        ensures moments { IfOk result (λ o. IsTrue S.tells → Steps (AsWasOrShut running.log.site.file) (S.clock running.log.site.site) (S.clock o.running.log.site.site)) }
        ensures stopped { IfErr result (λ e. IsTrue S.tells → Steps (AsWasOrShut running.log.site.file) (S.clock running.log.site.site) (S.clock e.1.log.site.site)) }
        ensures same { IfOk result (λ o. S.same_site running.log.site.site o.running.log.site.site) }
        ensures same_then { IfErr result (λ e. S.same_site running.log.site.site e.1.log.site.site) }
    {
        match begin_dump(&mut running, &copy) {
            Ok(()) => Ok(Online {
                running,
                copy: Some(copy),
            }),
            Err(fault) => Err((fault, running)),
        }
    }

    /// The site. Makes no call of it, and serves after a fault.
    pub fn into_site(self) -> DumpSite<S>
        ensures { result ≡ self.running.log.site }
    {
        let Online {
            running,
            copy: _copy,
        } = self;
        running.into_site()
    }
}
