//! What plans are run over.
ghost use Rattle.std.specs.Prelude.{map};
ghost use Rattle.kl_plan.specs.Nodes.{view};
ghost use Rattle.kl_plan.specs.Parts.{memos_of};
ghost use Rattle.kl_scans.specs.Keeping.{kept_in, room_in};
ghost use Rattle.kl_scans.specs.Running.{Running};

use kl_ask::{Driver, Session};
use kl_memo::Memo;
use kl_plan::Plan;

/// A session over which a plan is run, and what is kept of the plan's subqueries, where anything may be.
#[derive(Drop)]
pub struct Run<'p> {
    pub session: Session,
    pub memo: Option<Memo>,
    pub plan: &'p Plan,
}

/// What contracts see of a run.
pub trait Ran {
    /// The drivers that it runs over. (An impl that names their type may speak of them in `world`.)
    type Drivers;

    ghost world: { Self → Running };
}

impl<'p> Ran for Run<'p> {
    type Drivers = Vec<Box<dyn Driver>>;

    ghost world = { λ r. record {
      drivers = map (λ d. (Driver-box d).state d.value) r.session.drivers.items;
      sources = r.session.sources;
      settings = r.session.settings;
      trace = r.session.trace;
      memos = memos_of (view r.plan.now);
      kept = kept_in r.memo;
      room = room_in r.memo;
    } };
}
