ghost use Rattle.std.specs.Prelude.{◌≡◌};
ghost use Rattle.lib_bind.specs.Provides as provides;

use crate::libraries::Libraries;
use crate::library::Library;

/// The first library that provides a name.
#[derive(Clone, Copy, Debug, PartialEq, Eq)]
pub struct Offer {
    pub library: Library,
    /// One of the documents that it reaches lists the name under weak-symbols.
    pub weak: bool,
}

/// How an image is bound to a name of a library.
#[derive(Clone, Copy, Debug, PartialEq, Eq)]
pub struct Provider {
    /// That of the library that the command line names, whichever document the name is from.
    pub ordinal: u8,
    /// The library lists the name under weak-symbols.
    pub weak: bool,
    /// The library may be absent at run time.
    pub weak_library: bool,
}

/// The first library by ordinal that provides a name, in its own document or in one that it re-exports; `None` exactly
/// where no library does. Takes no memory.
pub fn offer_of(libs: &Libraries, name: &[u8]) -> Option<Offer>
    ensures { result ≡ provides.offer_of libs.now name.now }
{
    libs.index.get(name)
}

/// How an image is bound to a name: by the ordinal of the first library that provides it (`loader.h`: two-level
/// namespaces); `None` exactly where no library does. Takes no memory.
pub fn provider_of(libs: &Libraries, name: &[u8]) -> Option<Provider>
    ensures { result ≡ provides.provider_of libs.now name.now }
{
    match offer_of(libs, name) {
        Some(offer) => Some(Provider {
            ordinal: offer.library.ordinal,
            weak: offer.weak,
            weak_library: offer.library.weak,
        }),
        None => None,
    }
}
