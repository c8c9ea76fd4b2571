//! A value on the heap that several owners share.
ghost use Rattle.std.specs.Prelude.{◌≡◌, IfOk};

use base_ids::NoMemory;
use std::alloc::{AllocError, Global};
use std::fmt;
use std::fmt::{Debug, Formatter, Write};
use std::marker::Model;
use std::ops::Deref;
use std::sync::Arc;

/// A value that several owners share, in any threads. Contracts see the value, and not where it lies: two owners of
/// equal values are equal.
#[derive(Drop)]
pub struct Shared<T> {
    arc: Arc<T>,
}

impl<T> Model for Shared<T> {
    ghost use Rattle.std.specs.Arc.{arc_value};

    ghost Value = { T };

    ghost coded = { T.code };

    ghost view = { λ s. arc_value s.arc };
}

impl<T> Shared<T> {
    /// Lends the value.
    pub fn get(&self) -> &T
        ensures { result.now ≡ self.now }
    {
        &self.arc
    }
}

impl<T: Drop> Shared<T> {
    /// Shares a value. Where memory is refused, the value is dropped.
    pub fn new(alloc: Global, value: T) -> Result<Shared<T>, NoMemory>
        ensures { IfOk result (λ shared. shared ≡ value) }
    {
        let arc = Arc::new(alloc, value)?;
        Ok(Shared { arc })
    }

    /// One more owner of the same value. It copies nothing, and fails only where there are 2^63 owners.
    pub fn share(&self) -> Result<Shared<T>, NoMemory>
        ensures { IfOk result (λ shared. shared ≡ self.now) }
    {
        let arc = Arc::try_clone(&self.arc)?;
        Ok(Shared { arc })
    }
}

impl<T> Deref for Shared<T> {
    type Target = T;

    ghost deref_gives = { λ shared value. value ≡ shared };

    fn deref(&self) -> &T
        ensures { result.now ≡ self.now }
    {
        &self.arc
    }
}

impl<T: Drop> Clone for Shared<T> {
    ghost is_clone = { λ shared other. other ≡ shared };

    fn clone(&self) -> Result<Shared<T>, AllocError> {
        let arc = Arc::try_clone(&self.arc)?;
        Ok(Shared { arc })
    }
}

impl<T: PartialEq> PartialEq for Shared<T> {
    ghost eq = { T.eq };

    ghost laws = { T.laws };

    fn eq(&self, other: &Shared<T>) -> bool {
        *self.get() == *other.get()
    }
}

impl<T: Eq> Eq for Shared<T> {
    ghost laws = { T.Eq.laws };
}

impl<T: Debug> Debug for Shared<T> {
    ghost debug_output = { T.debug_output };

    fn fmt<W: Write>(&self, f: &mut Formatter<W>) -> fmt::Result {
        Debug::fmt(self.get(), f)
    }
}
