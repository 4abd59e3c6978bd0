//! What holds of bodies and of stores, each law the contract of a function with an empty body.

ghost use Rattle.checkpoint.specs.Body.{AreApart, SpellOneThing};
ghost use Rattle.checkpoint.specs.Store.{BodiesFit, FormatIsEmpty, HeadersAreOne};
ghost use Rattle.checkpoint.specs.Store.{PutsOpenEither};
ghost use Rattle.checkpoint.specs.Store.{PutsOpenNew, AreReady, SlotsHoldOne};
ghost use Rattle.checkpoint.specs.Store.{OpenToOne, ShowsItsHeader};

/// No body begins another one, whatever the settings. So bytes that follow a body don't change what is read.
pub fn bodies_are_apart()
    ensures { AreApart }
{}

/// A body spells one sequence, one digest and one cut under the settings of its store. So what `decode` reads from what
/// `encode` wrote is what was written.
pub fn bodies_spell_one()
    ensures { SpellOneThing }
{}

/// The bytes of a header spell one version and one set of settings.
pub fn headers_spell_one()
    ensures { HeadersAreOne }
{}

/// A store shows the version of its header: with its settings they are the header.
pub fn stores_show_their_header()
    ensures { ShowsItsHeader }
{}

/// Under its header each slot of a store holds one thing at most.
pub fn stores_hold_one()
    ensures { SlotsHoldOne }
{}

/// Under its header a store opens to one thing at most.
pub fn stores_open_to_one()
    ensures { OpenToOne }
{}

/// What `format` of `slot_disk` leaves, where its header is that of `header_of`, is a sound store with no gate open.
pub fn formatted_stores_are_empty()
    ensures { FormatIsEmpty }
{}

/// A body fits a slot of the span of its settings, so it may be put there.
pub fn bodies_fit_slots()
    ensures { BodiesFit }
{}

/// A sound store is ready for a put into a slot that isn't the newest.
pub fn stores_are_ready()
    ensures { AreReady }
{}

/// A put of a later body over a sound store, into a slot that isn't the newest, leaves at any moment a sound store that
/// opens as the old one did, or to the new body.
pub fn puts_open_old_or_new()
    ensures { PutsOpenEither }
{}

/// Once such a put is done, the store opens to the new body.
pub fn puts_open_the_new()
    ensures { PutsOpenNew }
{}
