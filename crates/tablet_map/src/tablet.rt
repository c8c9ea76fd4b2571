use crate::lists::replace;
use base_ids::{NoMemory, Replica, ReplicaList, Session};
use stage_graph::Stage;
use std::alloc::Global;

/// A move of one replica of a tablet to another host.
#[derive(Clone, Copy, Debug, PartialEq, Eq)]
pub struct Transition {
    /// How far the move is.
    pub stage: Stage,
    /// The replica that leaves.
    pub leaving: Replica,
    /// The replica that takes its place.
    pub pending: Replica,
    /// The move's number.
    pub session: Session,
}

/// A tablet: its replicas in order, and the move of one of them, where there is one.
#[derive(Debug, Drop)]
pub struct Tablet {
    /// The replicas, in their order.
    pub replicas: ReplicaList,
    /// The move; `None` where the tablet does not move.
    pub transition: Option<Transition>,
}

impl Tablet {
    ghost use Rattle.std.specs.Prelude.{◌≡◌, ◌≤◌, length, IfOk};
    ghost use Rattle.tablet_map.specs.Replicas.{replaced_list};
    ghost use Rattle.tablet_map.specs.Tablets.{is_moving, has_session};
    ghost use Rattle.tablet_map.specs.Calls.{at_rest, started_tablet, staged_tablet, finished_tablet, reverted_tablet};

    /// A tablet with these replicas that does not move.
    pub(crate) fn at_rest(alloc: Global, replicas: &[Replica]) -> Result<Tablet, NoMemory>
        requires { length replicas.now ≤ 9 }
        ensures { IfOk result (λ tablet. tablet ≡ at_rest replicas.now) }
    {
        Ok(Tablet {
            replicas: ReplicaList::new(alloc, replicas)?,
            transition: None,
        })
    }

    /// An equal tablet.
    pub(crate) fn clone_in(&self, alloc: Global) -> Result<Tablet, NoMemory>
        ensures { IfOk result (λ tablet. tablet ≡ self.now) }
    {
        Ok(Tablet {
            replicas: self.replicas.clone_in(alloc)?,
            transition: self.transition,
        })
    }

    /// Whether a replica of it moves.
    pub fn is_moving(&self) -> bool
        ensures { result ≡ is_moving self.now }
    {
        self.transition.is_some()
    }

    /// Whether a replica of it moves under this session.
    pub fn has_session(&self, session: Session) -> bool
        ensures { result ≡ has_session session self.now }
    {
        match &self.transition {
            Some(transition) => transition.session == session,
            None => false,
        }
    }

    pub(crate) fn start(&mut self, leaving: Replica, pending: Replica, session: Session)
        ensures { self.new ≡ started_tablet self.old leaving pending session }
    {
        self.transition = Some(Transition {
            stage: Stage::AllowWriteBothReadOld,
            leaving,
            pending,
            session,
        });
    }

    pub(crate) fn set_stage(&mut self, stage: Stage)
        ensures { self.new ≡ staged_tablet self.old stage }
    {
        if let Some(transition) = &mut self.transition {
            transition.stage = stage;
        }
    }

    pub(crate) fn finish(&mut self)
        ensures { self.new ≡ finished_tablet self.old }
    {
        if let Some(transition) = self.transition {
            replace(&mut self.replicas, transition.leaving, transition.pending);
            self.transition = None;
        }
    }

    pub(crate) fn revert(&mut self)
        ensures { self.new ≡ reverted_tablet self.old }
    {
        self.transition = None;
    }
}
