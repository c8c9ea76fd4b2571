ghost use Rattle.std.specs.Prelude.{◌≡◌, ◌^◌, ◌≤◌, ◌<◌, length, IfOk, OnOk, OnErr, None, IsSome, option_copied, option_map, position, IsTrue, is_some, not};
ghost use Rattle.tablet_map.specs.Replicas.{IsReplicaSet, CanMove};
ghost use Rattle.tablet_map.specs.Tablets.{tablet_in, is_moving, has_session, IsMap};
ghost use Rattle.tablet_map.specs.Calls.{new_tablets, with_tablet, at_rest, started_tablet, staged_tablet, finished_tablet, reverted_tablet, least_moving, least_apart, SplitEnds, MergeEnds};

use crate::errors::{MergeError, SplitError};
use crate::lists::{
    clones, equal_tablets, halves, keep_left, place_of_apart, place_of_moving, place_of_session,
};
use crate::tablet::{Tablet, Transition};
use base_ids::{NoMemory, Replica, ReplicaList, Session};
use stage_graph::Stage;
use std::alloc::Global;
use std::marker::Model;
use token_ring::TabletId;

/// The `2^log2` tablets of a table.
#[derive(Debug, Drop)]
pub struct TabletMap {
    log2: u8,
    tablets: Vec<Tablet>,
}

impl Model for TabletMap {
    ghost use Rattle.tablet_map.specs.Tablets.{Tablets, IsMap};

    ghost Value = { Tablets };

    ghost view = { λ m. record { log2 = m.log2; list = m.tablets.items } };

    ghost invariant = { λ m. IsMap m.log2 m.tablets.items };
}

impl TabletMap {
    /// How many tablets there are, as a power of two.
    pub fn log2(&self) -> u8
        ensures value { result ≡ self.now.log2 }
        ensures few { result ≤ 10 }
        ensures count { length self.now.list ≡ 2 ^ result }
    {
        self.log2
    }

    /// Lends the replicas of a tablet.
    pub fn replicas(&self, tablet: TabletId) -> &[Replica]
        requires { tablet.0 < length self.now.list }
        ensures list { result.now ≡ (tablet_in self.now.list tablet.0).replicas }
        ensures sound { IsReplicaSet result.now }
    {
        self.tablets[tablet.0 as usize].replicas.as_slice()
    }

    /// Lends the transition of a tablet, where it has one.
    pub fn transition(&self, tablet: TabletId) -> Option<&Transition>
        requires { tablet.0 < length self.now.list }
        ensures { option_copied result ≡ (tablet_in self.now.list tablet.0).transition }
    {
        self.tablets[tablet.0 as usize].transition.as_ref()
    }

    /// Lends the tablets.
    pub fn tablets(&self) -> &[Tablet]
        ensures { result.now ≡ self.now.list }
    {
        self.tablets.as_slice()
    }

    /// Whether a tablet is in transition.
    pub fn is_moving(&self) -> bool
        ensures { result ≡ is_some (least_moving self.now.list) }
    {
        place_of_moving(self.tablets.as_slice()).is_some()
    }

    /// Whether two tablets that a merge would make one have not the same set of replicas.
    pub fn is_apart(&self) -> bool
        ensures { result ≡ is_some (least_apart self.now.list) }
    {
        place_of_apart(self.tablets.as_slice()).is_some()
    }

    /// The least tablet whose transition has this session.
    pub fn find(&self, session: Session) -> Option<TabletId>
        ensures { option_map (λ tablet. tablet.0) result ≡ position (has_session session) self.now.list }
    {
        let at = place_of_session(self.tablets.as_slice(), session)?;
        Some(TabletId(at as u32))
    }

    /// A map of `2^log2` tablets, each with these replicas.
    pub fn new(alloc: Global, log2: u8, replicas: &[Replica]) -> Result<TabletMap, NoMemory>
        requires few { log2 ≤ 10 }
        requires set { IsReplicaSet replicas.now }
        ensures { IfOk result (λ map. map ≡ new_tablets log2 replicas.now) }
    {
        let tablets = equal_tablets(alloc, 1 << log2, replicas)?;
        Ok(TabletMap { log2, tablets })
    }

    /// An equal map.
    pub fn clone_in(&self, alloc: Global) -> Result<TabletMap, NoMemory>
        ensures { IfOk result (λ map. map ≡ self.now) }
    {
        let tablets = clones(alloc, self.tablets.as_slice())?;
        Ok(TabletMap {
            log2: self.log2,
            tablets,
        })
    }

    /// Gives a tablet that does not move other replicas. `NoMemory` leaves the map as it was.
    pub fn set_replicas(
        &mut self,
        alloc: Global,
        tablet: TabletId,
        replicas: &[Replica],
    ) -> Result<(), NoMemory>
        requires within { tablet.0 < length self.old.list }
        requires rests { (tablet_in self.old.list tablet.0).transition ≡ None }
        requires set { IsReplicaSet replicas.now }
        ensures ok { OnOk result (self.new ≡ with_tablet self.old tablet.0 (at_rest replicas.now)) }
        ensures err { OnErr result (self.new ≡ self.old) }
    {
        let replicas = ReplicaList::new(alloc, replicas)?;
        self.tablets[tablet.0 as usize].replicas = replicas;
        Ok(())
    }

    /// Begins to move the leaving replica of a tablet that does not move to the pending one.
    pub fn start(&mut self, tablet: TabletId, leaving: Replica, pending: Replica, session: Session)
        requires within { tablet.0 < length self.old.list }
        requires rests { (tablet_in self.old.list tablet.0).transition ≡ None }
        requires moves { CanMove (tablet_in self.old.list tablet.0).replicas leaving pending }
        ensures { self.new ≡
            with_tablet self.old tablet.0 (started_tablet (tablet_in self.old.list tablet.0) leaving pending session) }
    {
        self.tablets[tablet.0 as usize].start(leaving, pending, session);
    }

    /// Puts the transition of a tablet into a stage.
    pub fn set_stage(&mut self, tablet: TabletId, stage: Stage)
        requires within { tablet.0 < length self.old.list }
        requires moves { IsSome (tablet_in self.old.list tablet.0).transition }
        ensures { self.new ≡ with_tablet self.old tablet.0 (staged_tablet (tablet_in self.old.list tablet.0) stage) }
    {
        self.tablets[tablet.0 as usize].set_stage(stage);
    }

    /// Ends the transition of a tablet: in its list the leaving replica gives its place to the pending one.
    pub fn finish(&mut self, tablet: TabletId)
        requires within { tablet.0 < length self.old.list }
        requires moves { IsSome (tablet_in self.old.list tablet.0).transition }
        ensures { self.new ≡ with_tablet self.old tablet.0 (finished_tablet (tablet_in self.old.list tablet.0)) }
    {
        self.tablets[tablet.0 as usize].finish();
    }

    /// Ends the transition of a tablet with the replicas as they are.
    pub fn revert(&mut self, tablet: TabletId)
        requires within { tablet.0 < length self.old.list }
        requires moves { IsSome (tablet_in self.old.list tablet.0).transition }
        ensures { self.new ≡ with_tablet self.old tablet.0 (reverted_tablet (tablet_in self.old.list tablet.0)) }
    {
        self.tablets[tablet.0 as usize].revert();
    }

    /// Splits each tablet into two with its replicas. `Moving` where a tablet is in transition,
    /// looked for first.
    pub fn split(&mut self, alloc: Global) -> Result<(), SplitError>
        requires { self.old.log2 < 10 }
        ensures { SplitEnds self.old self.new result }
    {
        if let Some(at) = place_of_moving(self.tablets.as_slice()) {
            return Err(SplitError::Moving {
                tablet: TabletId(at as u32),
            });
        }
        let tablets = halves(alloc, self.tablets.as_slice())?;
        self.tablets = tablets;
        self.log2 += 1;
        Ok(())
    }

    /// Merges each even tablet with its right neighbour, whose replicas are the same as a set; the
    /// left one's list is kept. `Moving` where a tablet is in transition, looked for first;
    /// `NotColocated` where two neighbours have not the same set.
    pub fn merge(&mut self) -> Result<(), MergeError>
        requires { 0 < self.old.log2 }
        ensures { MergeEnds self.old self.new result }
    {
        if let Some(at) = place_of_moving(self.tablets.as_slice()) {
            return Err(MergeError::Moving {
                tablet: TabletId(at as u32),
            });
        }
        if let Some(at) = place_of_apart(self.tablets.as_slice()) {
            return Err(MergeError::NotColocated {
                left: TabletId(at as u32),
            });
        }
        keep_left(&mut self.tablets);
        self.log2 -= 1;
        Ok(())
    }
}
