//! The rule of the book's table, and what each step on it tells.
ghost use Rattle.book_rule.specs.Turns.{Drew, Looked, Passed, Rule, handed, handing, taking};
ghost use Rattle.book_rule.specs.Pins.{Confirms, LooksAtPins, LowersPin, LowersRaised, Publishes, Raises, Saw};
ghost use Rattle.book_rule.specs.declared.view.View.TheVariants.{Keeper, Spent};
ghost use Rattle.base_ids.specs.declared.ids.Version.{Version};
ghost use Rattle.std.specs.Prelude.{[]};

use crate::journal::Journal;
use atomic_table::{Join, Play, Shared, Split, Table, TableRule};
use book_rule::{About, View, World};
use std::alloc::Global;
use std::marker::{Brand, PhantomData};

/// What a seat of the book's table knows.
pub(crate) type ViewOf<W> = View<<W as World>::Opening, <W as World>::Entry>;

/// A seat of the book's table.
pub(crate) type TableSeat<W> = atomic_table::Seat<Journal<W>, ViewOf<W>>;

/// The book's table, as threads share it.
pub(crate) type Words<W> = Shared<Journal<W>, ViewOf<W>, About<<W as World>::Opening>, Turns<W>>;

/// The book's table.
pub(crate) type BookTable<W> = Table<
    Journal<W>,
    ViewOf<W>,
    About<<W as World>::Opening>,
    Turns<W>,
    Global,
>;

/// The rule of the book's table.
pub struct Turns<W> {
    world: PhantomData<W>,
}

impl<W: World> TableRule<Journal<W>, View<W::Opening, W::Entry>, About<W::Opening>> for Turns<W> {
    ghost holds = { λ about. Rule W.meaning about };

    ghost first = { λ about. Keeper about.opening about.actors [] };
}

/// A seat draws a ticket.
pub(crate) struct Draw<W> {
    world: PhantomData<W>,
}

impl<W: World> Play<Journal<W>, View<W::Opening, W::Entry>> for Draw<W> {
    ghost then = { Drew W.meaning };
}

/// A seat looks whether its ticket is served.
pub(crate) struct Look<W> {
    world: PhantomData<W>,
}

impl<W: World> Play<Journal<W>, View<W::Opening, W::Entry>> for Look<W> {
    ghost then = { Looked W.meaning };
}

/// A seat passes its turn.
pub(crate) struct Pass<W> {
    world: PhantomData<W>,
}

impl<W: World> Play<Journal<W>, View<W::Opening, W::Entry>> for Pass<W> {
    ghost then = { Passed W.meaning };
}

/// The keeper hands a part out, or takes it back.
pub(crate) struct Hand<W> {
    world: PhantomData<W>,
}

impl<W: World> Split<View<W::Opening, W::Entry>> for Hand<W> {
    ghost left = { handing };

    ghost right = { handed };
}

impl<W: World> Join<View<W::Opening, W::Entry>> for Hand<W> {
    ghost both = { taking };

    ghost spent = { Spent };
}

/// A lane looks at its host's version word.
pub(crate) struct See<W> {
    world: PhantomData<W>,
}

impl<W: World> Play<Journal<W>, View<W::Opening, W::Entry>> for See<W> {
    ghost then = { Saw };
}

/// A lane raises a pin.
pub(crate) struct Raise<W> {
    world: PhantomData<W>,
}

impl<W: World> Play<Journal<W>, View<W::Opening, W::Entry>> for Raise<W> {
    ghost then = { Raises };
}

/// The version that a step of a lane is about. Who calls the step picks it.
pub(crate) trait Chosen {
    ghost chosen: { Version };
}

impl Chosen for Brand {
    ghost use Rattle.base_ids.specs.Names.{first_version};

    ghost chosen = { first_version };
}

/// A lane looks whether the version at which it raised a pin is published still.
pub(crate) struct Confirm<W, K> {
    world: PhantomData<W>,
    version: PhantomData<K>,
}

impl<W: World, K: Chosen> Play<Journal<W>, View<W::Opening, W::Entry>> for Confirm<W, K> {
    ghost then = { Confirms K.chosen };
}

/// A lane lowers a raised pin.
pub(crate) struct LowerRaised<W, K> {
    world: PhantomData<W>,
    version: PhantomData<K>,
}

impl<W: World, K: Chosen> Play<Journal<W>, View<W::Opening, W::Entry>> for LowerRaised<W, K> {
    ghost then = { LowersRaised K.chosen };
}

/// A lane lowers a confirmed pin.
pub(crate) struct LowerPin<W, K> {
    world: PhantomData<W>,
    version: PhantomData<K>,
}

impl<W: World, K: Chosen> Play<Journal<W>, View<W::Opening, W::Entry>> for LowerPin<W, K> {
    ghost then = { LowersPin K.chosen };
}

/// A host looks at a pin word.
pub(crate) struct LookAtPins<W> {
    world: PhantomData<W>,
}

impl<W: World> Play<Journal<W>, View<W::Opening, W::Entry>> for LookAtPins<W> {
    ghost then = { LooksAtPins };
}

/// A host publishes a version.
pub(crate) struct Publish<W> {
    world: PhantomData<W>,
}

impl<W: World> Play<Journal<W>, View<W::Opening, W::Entry>> for Publish<W> {
    ghost then = { Publishes };
}
