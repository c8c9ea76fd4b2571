use base_ids::NoMemory;
use thiserror::Error;
use token_ring::TabletId;

/// Why a map was not split. It is as before.
#[derive(Clone, Copy, Debug, PartialEq, Eq, Error)]
pub enum SplitError {
    /// A tablet is in transition; this is the least one.
    #[error("tablet {} is in transition", tablet.0)]
    Moving { tablet: TabletId },
    /// Memory was asked for and refused.
    #[error("out of memory")]
    NoMemory,
}

impl From<NoMemory> for SplitError {
    ghost use Rattle.std.specs.Prelude.{◌≡◌};
    ghost use Rattle.tablet_map.specs.declared.errors.SplitError.TheVariants.{NoMemory};

    ghost from_gives = { λ _ error. error ≡ NoMemory };

    fn from(_refused: NoMemory) -> SplitError {
        SplitError::NoMemory
    }
}

/// Why a map was not merged. It is as before.
#[derive(Clone, Copy, Debug, PartialEq, Eq, Error)]
pub enum MergeError {
    /// A tablet is in transition; this is the least one.
    #[error("tablet {} is in transition", tablet.0)]
    Moving { tablet: TabletId },
    /// An even tablet and its right neighbour have not the same set of replicas; this is the
    /// least such tablet.
    #[error("tablet {} and its right neighbour are not colocated", left.0)]
    NotColocated { left: TabletId },
}
